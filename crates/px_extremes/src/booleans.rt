//! The least and the greatest Boolean, and whether the number of trues is odd. Each reads words of bits.
ghost use Rattle.std.specs.Prelude.{◌≡◌, is_some};
ghost use Rattle.std.specs.List.{list_any};
ghost use Rattle.px_semantics.specs.Bits.{bit_reduce_row, IsBitReduction};
ghost use Rattle.px_semantics.specs.Extremes.{min_row, max_row};
ghost use Rattle.px_semantics.specs.Rows.{boolean_row};
ghost use Rattle.px_types.specs.declared.function.BitwiseFunction.TheVariants as bitwise;
ghost use Rattle.px_types.specs.declared.value_type.ValueType.TheVariants as value_type;

use px_aggregates::{has_false, has_true, true_count};
use px_arrays::BooleanArray;
use px_types::BitwiseFunction;

/// False where a row is false, else true where one is true, else None: the least value, and the conjunction of all
/// values.
pub fn least_boolean(rows: &BooleanArray) -> Option<bool>
    ensures least { boolean_row result ≡ min_row rows.now }
    ensures bits { boolean_row result ≡ bit_reduce_row bitwise.And value_type.Boolean rows.now }
{
    prove!(rows.len() < 4294967296);
    if has_false(rows) {
        return Some(false);
    }
    if has_true(rows) {
        return Some(true);
    }
    None
}

/// True where a row is true, else false where one is false, else None: the greatest value, and the disjunction of
/// all values.
pub fn greatest_boolean(rows: &BooleanArray) -> Option<bool>
    ensures greatest { boolean_row result ≡ max_row rows.now }
    ensures bits { boolean_row result ≡ bit_reduce_row bitwise.Or value_type.Boolean rows.now }
{
    prove!(rows.len() < 4294967296);
    if has_true(rows) {
        return Some(true);
    }
    if has_false(rows) {
        return Some(false);
    }
    None
}

/// Whether a row is not null.
fn has_value(rows: &BooleanArray) -> bool
    ensures { result ≡ list_any is_some rows.now }
{
    rows.valid().zeros() < rows.len()
}

/// Whether the number of rows that are true is odd. None where there is no value.
fn is_odd(rows: &BooleanArray) -> Option<bool>
    ensures { boolean_row result ≡ bit_reduce_row bitwise.Xor value_type.Boolean rows.now }
{
    prove!(rows.len() < 4294967296);
    if has_value(rows) {
        return Some(true_count(rows) % 2 == 1);
    }
    None
}

/// The conjunction, the disjunction or the exclusive or of all values. None where there is no value.
pub fn reduce_booleans(rows: &BooleanArray, function: BitwiseFunction) -> Option<bool>
    requires { IsBitReduction function }
    ensures { boolean_row result ≡ bit_reduce_row function value_type.Boolean rows.now }
{
    match function {
        BitwiseFunction::And => least_boolean(rows),
        BitwiseFunction::Or => greatest_boolean(rows),
        BitwiseFunction::Xor => is_odd(rows),
        _ => unreachable!(),
    }
}
