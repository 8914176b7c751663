//! A match over two buffers of one integer type.

/// A match that makes the same call for each integer type: `integers!((a, b) {..} => call)` on the numbers in the
/// buffers `a` and `b`, whose answer is put into a buffer of the type. The arms in the braces are those of the other
/// types.
macro_rules! integers {
    (($a:ident, $b:ident) { $($other:pat => $answer:expr,)* } => $call:expr) => {
        match ($a, $b) {
            $($other => $answer,)*
            (Buffer::Int8($a), Buffer::Int8($b)) => Ok(Buffer::Int8($call?)),
            (Buffer::Int16($a), Buffer::Int16($b)) => Ok(Buffer::Int16($call?)),
            (Buffer::Int32($a), Buffer::Int32($b)) => Ok(Buffer::Int32($call?)),
            (Buffer::Int64($a), Buffer::Int64($b)) => Ok(Buffer::Int64($call?)),
            (Buffer::UInt8($a), Buffer::UInt8($b)) => Ok(Buffer::UInt8($call?)),
            (Buffer::UInt16($a), Buffer::UInt16($b)) => Ok(Buffer::UInt16($call?)),
            (Buffer::UInt32($a), Buffer::UInt32($b)) => Ok(Buffer::UInt32($call?)),
            (Buffer::UInt64($a), Buffer::UInt64($b)) => Ok(Buffer::UInt64($call?)),
            _ => unreachable!(),
        }
    };
}

pub(crate) use integers;
