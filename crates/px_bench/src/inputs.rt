//! The rows and columns that the work is done on.
ghost use Rattle.std.specs.Prelude.{◌≡◌, IfOk};
ghost use Rattle.px_types.specs.declared.value_type.ValueType.TheVariants as value_type;

use px_arrays::IntegerArrayBuilder;
use px_column::{Buffer, Column};
use px_types::{DataType, PlanError, SmallStr};
use std::alloc::Global;

/// Rows that columns are built from, an eighth of them null.
#[derive(Drop)]
pub struct Sources {
    pub flags: Vec<Option<bool>>,
    pub narrow: Vec<Option<i32>>,
    pub wide: Vec<Option<i128>>,
}

/// The columns of these rows.
#[derive(Drop)]
pub struct Columns {
    pub booleans: Column,
    pub numbers: Column,
    ghost boolean: { booleans.values.value_type ≡ value_type.Boolean },
    ghost integer: { numbers.values.value_type ≡ value_type.Int32 },
}

/// What the work is done on: the columns `first` and `second`, and the rows of `first`.
#[derive(Drop)]
pub struct Inputs {
    pub sources: Sources,
    pub first: Columns,
    pub second: Columns,
}

impl Sources {
    /// So many rows.
    fn new(alloc: Global, rows: u32, seed: u32) -> Result<Sources, PlanError> {
        let flags = flags(alloc, rows, seed)?;
        let narrow = numbers(alloc, rows, seed)?;
        let wide = widened(alloc, narrow.as_slice())?;
        Ok(Sources {
            flags,
            narrow,
            wide,
        })
    }
}

impl Columns {
    fn new(alloc: Global, sources: &Sources) -> Result<Columns, PlanError> {
        let booleans = boolean_column(alloc, sources.flags.as_slice())?;
        let numbers = number_column(alloc, sources.narrow.as_slice())?;
        Ok(Columns { booleans, numbers })
    }
}

impl Inputs {
    /// Columns of so many rows.
    pub fn new(alloc: Global, rows: u32) -> Result<Inputs, PlanError> {
        let others = Sources::new(alloc, rows, OTHER)?;
        let second = Columns::new(alloc, &others)?;
        let sources = Sources::new(alloc, rows, 0)?;
        let first = Columns::new(alloc, &sources)?;
        Ok(Inputs {
            sources,
            first,
            second,
        })
    }
}

/// The seed of the second columns. That of the first is 0.
const OTHER: u32 = 3_266_489_917;

/// Bits of a row's place that look random.
fn mixed(place: u32, seed: u32) -> u32 {
    let x = (place ^ seed).wrapping_mul(2_654_435_769);
    let y = (x ^ (x >> 15)).wrapping_mul(2_246_822_519);
    y ^ (y >> 13)
}

fn flags(alloc: Global, rows: u32, seed: u32) -> Result<Vec<Option<bool>>, PlanError> {
    let mut flags = Vec::with_capacity(alloc, rows as usize)?;
    for place in 0..rows {
        let bits = mixed(place, seed);
        flags.push(if bits % 8 == 0 {
            None
        } else {
            Some(bits / 8 % 2 == 0)
        })?;
    }
    Ok(flags)
}

/// Numbers from -1000 to 1000.
fn numbers(alloc: Global, rows: u32, seed: u32) -> Result<Vec<Option<i32>>, PlanError> {
    let mut numbers = Vec::with_capacity(alloc, rows as usize)?;
    for place in 0..rows {
        let bits = mixed(place, seed);
        numbers.push(if bits % 8 == 0 {
            None
        } else {
            Some((bits / 8 % 2001) as i32 - 1000)
        })?;
    }
    Ok(numbers)
}

fn widened(alloc: Global, numbers: &[Option<i32>]) -> Result<Vec<Option<i128>>, PlanError> {
    let mut wide = Vec::with_capacity(alloc, numbers.len())?;
    for number in numbers {
        wide.push(match number {
            Some(number) => Some(i128::from(*number)),
            None => None,
        })?;
    }
    Ok(wide)
}

pub fn boolean_column(alloc: Global, flags: &[Option<bool>]) -> Result<Column, PlanError>
    ensures { IfOk result (λ c. c.values.value_type ≡ value_type.Boolean) }
{
    Column::new_bool(alloc, "p", flags)
}

/// A column of numbers that are pushed row by row.
pub fn number_column(alloc: Global, numbers: &[Option<i32>]) -> Result<Column, PlanError>
    ensures { IfOk result (λ c. c.values.value_type ≡ value_type.Int32) }
{
    if numbers.len() > u32::MAX as usize {
        return Err(PlanError::TooLong);
    }
    let mut builder = IntegerArrayBuilder::with_capacity(alloc, numbers.len())?;
    for number in numbers {
        builder.push(*number)?;
    }
    let name = SmallStr::new(alloc, "a")?;
    Ok(Column::new(name, Buffer::Int32(builder.finish()?)))
}

/// A column of numbers that are checked against the type.
pub fn checked_column(alloc: Global, numbers: &[Option<i128>]) -> Result<Column, PlanError> {
    Column::new_int(alloc, "a", DataType::Int32, numbers)
}
