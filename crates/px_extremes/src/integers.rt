//! An operation on all integers that are not null, in one pass: the least, the greatest, and the bits of all.
ghost use Rattle.std.specs.Prelude.{◌≡◌, ℤ, int_lt, bit_xor, option_map, if◌then◌else◌};
ghost use Rattle.std.proofs.lemmas.Bool.{cond_both};
ghost use Rattle.px_types.specs.Integers.{InRange};
ghost use Rattle.px_semantics.specs.Bits.{IsBitReduction, reduction_operator};
ghost use Rattle.px_semantics.specs.Bitwise.{bitwise};
ghost use Rattle.px_semantics.specs.Extremes.{min_row, max_row};
ghost use Rattle.px_semantics.specs.Horizontals.{coalesce_row};
ghost use Rattle.px_semantics.specs.Logic.{word_of};
ghost use Rattle.px_semantics.specs.Rows.{integer_row};
ghost use Rattle.px_extremes.specs.Reductions.{reduce_rows};

use px_aggregates::fold_valid;
use px_arrays::IntegerArray;
use px_integers::{BitAnd, BitOr, BitXor, Integer, Operation, Residue};
use px_types::BitwiseFunction;

/// The lesser of two numbers.
pub struct Minimum;

/// The greater of two numbers.
pub struct Maximum;

impl<T: Integer> Operation<T> for Minimum {
    ghost meaning = { λ x y. if int_lt y x then y else x };

    ghost range = { λ x y p q. cond_both (int_lt y x) y x (InRange T.value_type) (λ _. q) (λ _. p) };

    fn apply(x: T, y: T) -> T {
        if y.is_less(x) { y } else { x }
    }
}

impl<T: Integer> Operation<T> for Maximum {
    ghost meaning = { λ x y. if int_lt x y then y else x };

    ghost range = { λ x y p q. cond_both (int_lt x y) y x (InRange T.value_type) (λ _. q) (λ _. p) };

    fn apply(x: T, y: T) -> T {
        if x.is_less(y) { y } else { x }
    }
}

/// The first value that is not null.
fn first_value<T: Integer>(rows: &IntegerArray<T>) -> Option<T>
    ensures { integer_row (option_map T.integer result) ≡ coalesce_row rows.now }
{
    for i in 0..rows.len() {
        if let Some(value) = rows.get(i) {
            return Some(value);
        }
    }
    None
}

/// The operation on all values that are not null. None where there is none. The first value may come twice, since
/// the operation on a number and itself gives the number.
fn reduce_valid<T: Residue, O: Operation<T>>(rows: &IntegerArray<T>) -> Option<T>
    requires { (z : ℤ) → InRange T.value_type z → O.meaning z z ≡ z }
    ensures { integer_row (option_map T.integer result) ≡ reduce_rows O.meaning rows.now }
{
    prove!(rows.len() < 4294967296);
    let Some(first) = first_value(rows) else {
        return None;
    };
    Some(fold_valid::<T, T, O>(first, rows))
}

/// The exclusive or of all values, bit by bit. None where there is none.
fn xor_valid<T: Residue>(rows: &IntegerArray<T>) -> Option<T>
    ensures { integer_row (option_map T.integer result)
        ≡ reduce_rows (bitwise bit_xor T.value_type) rows.now }
{
    prove!(rows.len() < 4294967296);
    let Some(_first) = first_value(rows) else {
        return None;
    };
    Some(fold_valid::<T, T, BitXor>(T::zero(), rows))
}

/// The least value. None where there is none.
pub fn least_integer<T: Residue>(rows: &IntegerArray<T>) -> Option<T>
    ensures { integer_row (option_map T.integer result) ≡ min_row rows.now }
{
    prove!(rows.len() < 4294967296);
    reduce_valid::<T, Minimum>(rows)
}

/// The greatest value. None where there is none.
pub fn greatest_integer<T: Residue>(rows: &IntegerArray<T>) -> Option<T>
    ensures { integer_row (option_map T.integer result) ≡ max_row rows.now }
{
    prove!(rows.len() < 4294967296);
    reduce_valid::<T, Maximum>(rows)
}

/// All values, bit by bit, by `And`, `Or` or `Xor`. None where there is none.
pub fn reduce_integers<T: Residue>(rows: &IntegerArray<T>, function: BitwiseFunction) -> Option<T>
    requires { IsBitReduction function }
    ensures { integer_row (option_map T.integer result)
        ≡ reduce_rows (bitwise (word_of (reduction_operator function)) T.value_type) rows.now }
{
    match function {
        BitwiseFunction::And => reduce_valid::<T, BitAnd>(rows),
        BitwiseFunction::Or => reduce_valid::<T, BitOr>(rows),
        BitwiseFunction::Xor => xor_valid(rows),
        _ => unreachable!(),
    }
}
