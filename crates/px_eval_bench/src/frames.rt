//! The frame that is selected from.
use px_arrays::IntegerArrayBuilder;
use px_column::{Buffer, Column, ColumnList, Frame};
use px_types::{PlanError, SmallStr};
use std::alloc::Global;

/// Bits of a row's place that look random.
fn mixed(place: u32, seed: u32) -> u32 {
    let x = (place ^ seed).wrapping_mul(2_654_435_769);
    let y = (x ^ (x >> 15)).wrapping_mul(2_246_822_519);
    y ^ (y >> 13)
}

/// Numbers from -1000 to 1000, an eighth of them null.
fn number(place: u32, seed: u32) -> Option<i32> {
    let bits = mixed(place, seed);
    if bits % 8 == 0 {
        return None;
    }
    Some((bits / 8 % 2001) as i32 - 1000)
}

fn numbers(alloc: Global, name: &str, rows: u32, seed: u32) -> Result<Column, PlanError> {
    let mut builder = IntegerArrayBuilder::with_capacity(alloc, rows as usize)?;
    for place in 0..rows {
        builder.push(number(place, seed))?;
    }
    let name = SmallStr::new(alloc, name)?;
    Ok(Column::new(name, Buffer::Int32(builder.finish()?)))
}

/// The name of each column, and the seed of its numbers.
const COLUMNS: &[(&str, u32)] = &[("a", 0), ("b", 1), ("c", 2), ("p", 3)];

/// The integer columns a, b, c and p of so many rows.
pub fn frame(alloc: Global, rows: u32) -> Result<Frame, PlanError> {
    let mut columns = ColumnList::new(alloc);
    for column in COLUMNS {
        columns.try_push(numbers(alloc, column.0, rows, column.1)?)?;
    }
    Frame::new(alloc, columns)
}
