//! Buffers at the length to which several join. A buffer of that length is borrowed and not copied.
ghost use Rattle.std.specs.Prelude.{◌≡◌, ◌⊎◌, length, unwrap_or, IfOk, IfErr};
ghost use Rattle.px_semantics.specs.Selections.{broadcast_length_three};
ghost use Rattle.px_semantics.specs.Rows.{stretch};
ghost use Rattle.px_column.specs.ColumnOf.{type_of, rows_of};

use px_column::{Buffer, join_lengths};
use px_types::PlanError;
use std::alloc::Global;

/// The length to which three lengths broadcast: each is that length, or one.
pub fn join_three_lengths(k: u32, m: u32, n: u32) -> Option<u32>
    ensures { result ≡ broadcast_length_three k m n }
{
    let inner = join_lengths(m, n)?;
    join_lengths(k, inner)
}

/// The one row of a buffer `len` times. None where the buffer has `len` rows.
pub fn broadcast(alloc: Global, a: &Buffer, len: u32) -> Result<Option<Buffer>, PlanError>
    requires { (length (rows_of a.now) ≡ 1) ⊎ (length (rows_of a.now) ≡ len) }
    ensures value_type { IfOk result (λ wide. type_of (unwrap_or wide a.now) ≡ type_of a.now) }
    ensures rows { IfOk result (λ wide. rows_of (unwrap_or wide a.now) ≡ stretch len (rows_of a.now)) }
    ensures err { IfErr result (λ e. e ≡ PlanError.OutOfMemory) }
{
    if a.len() == len {
        return Ok(None);
    }
    Ok(Some(a.repeated(alloc, len)?))
}

/// The buffer that was broadcast, or where there is none the buffer itself.
pub fn wide_or<'a>(wide: &'a Option<Buffer>, a: &'a Buffer) -> &'a Buffer
    ensures { result.now ≡ unwrap_or wide.now a.now }
{
    match wide {
        Some(wide) => wide,
        None => a,
    }
}
