//! One of two rows, place by place: the first value, the least, or the greatest.
ghost use Rattle.std.specs.Prelude.{◌≡◌, ◌⊎◌, ◌||◌, not, Some, is_some, map, length, option_map, IfOk, IfErr};
ghost use Rattle.std.specs.Option.{option_copied};
ghost use Rattle.std.specs.Simd.Lanes.{zip2};
ghost use Rattle.px_base.specs.Answer.{GivesOrMemory};
ghost use Rattle.px_semantics.specs.Logic.{is_true};
ghost use Rattle.px_semantics.specs.Rows.{IntegerValue, StringValue, boolean_entry, integer_row, string_row, stretch};
ghost use Rattle.px_column.specs.ColumnOf.{type_of, rows_of};
ghost use Rattle.px_horizontals.specs.Choices.{beats, chosen, flag_of};

use crate::arms::integers;
use crate::places::place_in;
use px_arrays::{
    Bitmap, BooleanArray, IntegerArray, IntegerArrayBuilder, StringArray, StringArrayBuilder,
};
use px_column::Buffer;
use px_integers::Integer;
use px_types::PlanError;
use std::alloc::{AllocError, Global};
use std::cmp::Ordering;

/// Which of two values is taken.
#[derive(Clone, Copy)]
pub enum Choice {
    First,
    Least,
    Greatest,
}

/// Whether the second of two integers is taken.
fn takes_second_integer<T: Integer>(choice: Choice, first: T, second: T) -> bool
    ensures { result ≡ beats choice (Some (IntegerValue (T.integer second))) (Some (IntegerValue (T.integer first))) }
{
    match choice {
        Choice::First => false,
        Choice::Least => second.is_less(first),
        Choice::Greatest => first.is_less(second),
    }
}

/// The integer that is taken, and the other row where one is null.
fn chosen_integer<T: Integer>(choice: Choice, x: Option<T>, y: Option<T>) -> Option<T>
    ensures { integer_row (option_map T.integer result)
        ≡ chosen choice (integer_row (option_map T.integer x)) (integer_row (option_map T.integer y)) }
{
    match (x, y) {
        (Some(first), Some(second)) => {
            if takes_second_integer(choice, first, second) {
                y
            } else {
                x
            }
        }
        (None, _) => y,
        _ => x,
    }
}

/// Row by row the integer that is taken. The second has as many rows as the first, or one.
fn chosen_integers<T: Integer>(
    alloc: Global,
    choice: Choice,
    a: &IntegerArray<T>,
    b: &IntegerArray<T>,
) -> Result<IntegerArray<T>, PlanError>
    requires { (length b.now ≡ 1) ⊎ (length b.now ≡ length a.now) }
    ensures { GivesOrMemory result (zip2 (chosen choice) a.now (stretch (length a.now) b.now)) }
{
    let count = a.len();
    let other = b.len();
    let mut rows = IntegerArrayBuilder::with_capacity(alloc, count)?;
    for i in 0..count {
        let second = b.get(place_in(other, i, count));
        rows.push(chosen_integer(choice, a.get(i), second))?;
    }
    rows.finish()
}

/// Whether the second of two strings is taken.
fn takes_second_string(choice: Choice, first: &str, second: &str) -> bool
    ensures { result ≡ beats choice (Some (StringValue second.now)) (Some (StringValue first.now)) }
{
    match choice {
        Choice::First => false,
        Choice::Least => second.cmp(first) == Ordering::Less,
        Choice::Greatest => first.cmp(second) == Ordering::Less,
    }
}

/// The string that is taken, and the other row where one is null.
fn chosen_string<'a>(choice: Choice, x: Option<&'a str>, y: Option<&'a str>) -> Option<&'a str>
    ensures { string_row (option_copied result)
        ≡ chosen choice (string_row (option_copied x.entry)) (string_row (option_copied y.entry)) }
{
    match (x, y) {
        (Some(first), Some(second)) => {
            if takes_second_string(choice, first, second) {
                y
            } else {
                x
            }
        }
        (None, _) => y,
        _ => x,
    }
}

/// Row by row the string that is taken. The second has as many rows as the first, or one.
fn chosen_strings(
    alloc: Global,
    choice: Choice,
    a: &StringArray,
    b: &StringArray,
) -> Result<StringArray, PlanError>
    requires { (length b.now ≡ 1) ⊎ (length b.now ≡ length a.now) }
    ensures { GivesOrMemory result (zip2 (chosen choice) a.now (stretch (length a.now) b.now)) }
{
    let count = a.len();
    let other = b.len();
    let mut rows = StringArrayBuilder::with_capacity(alloc, count)?;
    for i in 0..count {
        let second = b.get(place_in(other, i, count));
        rows.push(chosen_string(choice, a.get(i), second))?;
    }
    rows.finish()
}

/// Which rows are true in the first, and in the second where the first is null.
fn first_flags(alloc: Global, a: &BooleanArray, b: &BooleanArray) -> Result<Bitmap, AllocError>
    requires { length a.now ≡ length b.now }
    ensures { IfOk result (λ f. f ≡ zip2 (flag_of Choice.First) a.now b.now) }
{
    let missing = a.valid().not(alloc)?;
    let second = missing.and(alloc, b.truth())?;
    a.truth().or(alloc, &second)
}

/// Which rows are true or null.
fn true_or_null(alloc: Global, a: &BooleanArray) -> Result<Bitmap, AllocError>
    ensures { IfOk result (λ f. f ≡ map (λ x. is_true x || not (is_some x)) a.now) }
{
    let missing = a.valid().not(alloc)?;
    a.truth().or(alloc, &missing)
}

/// Which rows are false in none of the two.
fn least_flags(alloc: Global, a: &BooleanArray, b: &BooleanArray) -> Result<Bitmap, AllocError>
    requires { length a.now ≡ length b.now }
    ensures { IfOk result (λ f. f ≡ zip2 (flag_of Choice.Least) a.now b.now) }
{
    let first = true_or_null(alloc, a)?;
    let second = true_or_null(alloc, b)?;
    first.and(alloc, &second)
}

/// Which rows are true in one of the two.
fn greatest_flags(alloc: Global, a: &BooleanArray, b: &BooleanArray) -> Result<Bitmap, AllocError>
    requires { length a.now ≡ length b.now }
    ensures { IfOk result (λ f. f ≡ zip2 (flag_of Choice.Greatest) a.now b.now) }
{
    a.truth().or(alloc, b.truth())
}

/// Which rows are true of those that are taken, where they are values.
fn chosen_flags(
    alloc: Global,
    choice: Choice,
    a: &BooleanArray,
    b: &BooleanArray,
) -> Result<Bitmap, AllocError>
    requires { length a.now ≡ length b.now }
    ensures { IfOk result (λ f. f ≡ zip2 (flag_of choice) a.now b.now) }
{
    match choice {
        Choice::First => first_flags(alloc, a, b),
        Choice::Least => least_flags(alloc, a, b),
        Choice::Greatest => greatest_flags(alloc, a, b),
    }
}

/// Row by row the Boolean that is taken, by words of bits.
fn chosen_bits(
    alloc: Global,
    choice: Choice,
    a: &BooleanArray,
    b: &BooleanArray,
) -> Result<BooleanArray, AllocError>
    requires { length a.now ≡ length b.now }
    ensures { IfOk result (λ r. r ≡ zip2 (chosen choice) a.now b.now) }
{
    prove!(a.len() == b.len());
    let flags = chosen_flags(alloc, choice, a, b)?;
    let valid = a.valid().or(alloc, b.valid())?;
    BooleanArray::masked(alloc, &flags, valid)
}

/// The same of a second that has as many rows as the first, or one, which is repeated.
fn chosen_booleans(
    alloc: Global,
    choice: Choice,
    a: &BooleanArray,
    b: &BooleanArray,
) -> Result<BooleanArray, AllocError>
    requires { (length b.now ≡ 1) ⊎ (length b.now ≡ length a.now) }
    ensures { IfOk result (λ r. r ≡ zip2 (chosen choice) a.now (stretch (length a.now) b.now)) }
{
    if b.len() == a.len() {
        return chosen_bits(alloc, choice, a, b);
    }
    let second = b.repeated(alloc, a.len())?;
    chosen_bits(alloc, choice, a, &second)
}

/// Row by row the row that is taken, of two buffers of one type. The second has as many rows as the first, or one.
/// The only error is out of memory.
pub fn chosen_rows(
    alloc: Global,
    choice: Choice,
    a: &Buffer,
    b: &Buffer,
) -> Result<Buffer, PlanError>
    requires same { type_of b.now ≡ type_of a.now }
    requires long { (length (rows_of b.now) ≡ 1) ⊎ (length (rows_of b.now) ≡ length (rows_of a.now)) }
    ensures value_type { IfOk result (λ r. type_of r ≡ type_of a.now) }
    ensures rows { IfOk result (λ r. rows_of r ≡ zip2 (chosen choice) (rows_of a.now)
        (stretch (length (rows_of a.now)) (rows_of b.now))) }
    ensures err { IfErr result (λ e. e ≡ PlanError.OutOfMemory) }
{
    integers!((a, b) {
        (Buffer::Null(len), Buffer::Null(_)) => Ok(Buffer::Null(*len)),
        (Buffer::Boolean(a), Buffer::Boolean(b)) => Ok(Buffer::Boolean(chosen_booleans(alloc, choice, a, b)?)),
        (Buffer::String(a), Buffer::String(b)) => Ok(Buffer::String(chosen_strings(alloc, choice, a, b)?)),
    } => chosen_integers(alloc, choice, a, b))
}
