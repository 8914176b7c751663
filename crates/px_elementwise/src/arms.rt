//! Matches over the eight integer types.

/// A match that makes the same call for each integer type: `integers!(rows {..} => call)` on the numbers in
/// the buffer `rows`. With `=> Buffer call` the answer is put into a buffer of the type. The arms in the
/// braces come first, and no other type may come.
macro_rules! integers {
    ($rows:ident {$($other:pat => $answer:expr,)*} => Buffer $call:expr) => {
        match $rows {
            $($other => $answer,)*
            Buffer::Int8($rows) => Ok(Buffer::Int8($call?)),
            Buffer::Int16($rows) => Ok(Buffer::Int16($call?)),
            Buffer::Int32($rows) => Ok(Buffer::Int32($call?)),
            Buffer::Int64($rows) => Ok(Buffer::Int64($call?)),
            Buffer::UInt8($rows) => Ok(Buffer::UInt8($call?)),
            Buffer::UInt16($rows) => Ok(Buffer::UInt16($call?)),
            Buffer::UInt32($rows) => Ok(Buffer::UInt32($call?)),
            Buffer::UInt64($rows) => Ok(Buffer::UInt64($call?)),
            _ => unreachable!(),
        }
    };
    ($rows:ident {$($other:pat => $answer:expr,)*} => $call:expr) => {
        match $rows {
            $($other => $answer,)*
            Buffer::Int8($rows) => $call,
            Buffer::Int16($rows) => $call,
            Buffer::Int32($rows) => $call,
            Buffer::Int64($rows) => $call,
            Buffer::UInt8($rows) => $call,
            Buffer::UInt16($rows) => $call,
            Buffer::UInt32($rows) => $call,
            Buffer::UInt64($rows) => $call,
            _ => unreachable!(),
        }
    };
}

pub(crate) use integers;
