//! Broadcasting: the length to which columns go together, and a column of one row as one of that length.
ghost use Rattle.std.specs.Prelude.{◌≡◌, ◌⊎◌, length};
ghost use Rattle.px_base.specs.Answer.{GivesOrMemory};
ghost use Rattle.px_semantics.specs.Rows.{broadcast_length, stretch};

use crate::column::Column;
use px_types::PlanError;
use std::alloc::Global;

/// The length to which two lengths broadcast, as in Polars: they are equal, or one of them is one.
/// None where they do not broadcast.
pub fn join_lengths(a: u32, b: u32) -> Option<u32>
    ensures { result ≡ broadcast_length a b }
{
    if a == b {
        Some(a)
    } else if a == 1 {
        Some(b)
    } else if b == 1 {
        Some(a)
    } else {
        None
    }
}

/// The one row of a column `n` times; a column of `n` rows as it is. Its name stays. The only error
/// is out of memory.
pub fn stretch(alloc: Global, c: &Column, n: u32) -> Result<Column, PlanError>
    requires { (length c.now.values.rows ≡ 1) ⊎ (length c.now.values.rows ≡ n) }
    ensures { GivesOrMemory result (record { name = c.now.name; values = record { value_type = c.now.values.value_type; rows = stretch n c.now.values.rows } }) }
{
    if c.len() == n {
        return c.try_clone(alloc);
    }
    let name = c.name().try_clone(alloc)?;
    let buffer = c.buffer().repeated(alloc, n)?;
    Ok(Column::new(name, buffer))
}
