//! Tests of two values place by place.
ghost use Rattle.std.specs.Prelude.{◌≡◌, length, map, Bool, IfOk};
ghost use Rattle.std.specs.List.{zip};
ghost use Rattle.std.specs.Option.{option_copied};
ghost use Rattle.std.specs.Simd.Lanes.{zip2};
ghost use Rattle.px_semantics.specs.Comparisons.{less, equal, both_pass, test_row};
ghost use Rattle.px_semantics.specs.Rows.{Datum, IntegerValue, StringValue, string_row};

use px_arrays::{BooleanArray, IntegerArray, StringArray};
use px_integers::Integer;
use std::alloc::{AllocError, Global};
use std::cmp::Ordering;

/// A test of two numbers of a type.
pub trait Test<T: Integer> {
    ghost meaning: { Datum → Datum → Bool };

    fn test(x: T, y: T) -> bool
        ensures { result ≡ meaning (IntegerValue (T.integer x)) (IntegerValue (T.integer y)) };
}

/// Whether the first is less.
pub struct Less;

/// Whether the two are equal.
pub struct Same;

impl<T: Integer> Test<T> for Less {
    ghost meaning = { less };

    fn test(x: T, y: T) -> bool {
        x.is_less(y)
    }
}

impl<T: Integer> Test<T> for Same {
    ghost meaning = { equal };

    fn test(x: T, y: T) -> bool {
        x.is_same(y)
    }
}

/// Place by place the test.
fn flags<T: Integer, F: Test<T>>(alloc: Global, a: &[T], b: &[T]) -> Result<Vec<bool>, AllocError>
    ensures { IfOk result (λ v. v.items ≡ map
        (λ p. F.meaning (IntegerValue (T.integer p.0)) (IntegerValue (T.integer p.1))) (zip a.now b.now)) }
{
    a.iter().zip(b).map(|(x, y)| F::test(*x, *y)).collect(alloc)
}

/// Row by row the test of two lists of numbers, null where one is null.
pub fn integer_tests<T: Integer, F: Test<T>>(
    alloc: Global,
    a: &IntegerArray<T>,
    b: &IntegerArray<T>,
) -> Result<BooleanArray, AllocError>
    requires { length a.now ≡ length b.now }
    ensures { IfOk result (λ r. r ≡ zip2 (test_row F.meaning) a.now b.now) }
{
    let flags = flags::<T, F>(alloc, a.values(), b.values())?;
    let valid = a.valid().and(alloc, b.valid())?;
    BooleanArray::from_flags(alloc, flags.as_slice(), valid)
}

/// A test of two strings.
pub trait StringTest {
    ghost meaning: { Datum → Datum → Bool };

    fn test(x: &str, y: &str) -> bool
        ensures { result ≡ meaning (StringValue x.now) (StringValue y.now) };
}

impl StringTest for Less {
    ghost meaning = { less };

    fn test(x: &str, y: &str) -> bool {
        x.cmp(y) == Ordering::Less
    }
}

impl StringTest for Same {
    ghost meaning = { equal };

    fn test(x: &str, y: &str) -> bool {
        x.cmp(y) == Ordering::Equal
    }
}

/// Whether two strings pass the test, false where one is missing.
fn strings_pass<F: StringTest>(x: Option<&str>, y: Option<&str>) -> bool
    ensures { result ≡ both_pass F.meaning (string_row (option_copied x.entry)) (string_row (option_copied y.entry)) }
{
    match (x, y) {
        (Some(x), Some(y)) => F::test(x, y),
        _ => false,
    }
}

/// Row by row the test of two lists of strings, null where one is null.
pub fn string_tests<F: StringTest>(
    alloc: Global,
    a: &StringArray,
    b: &StringArray,
) -> Result<BooleanArray, AllocError>
    requires { length a.now ≡ length b.now }
    ensures { IfOk result (λ r. r ≡ zip2 (test_row F.meaning) a.now b.now) }
{
    let len = a.len();
    prove!(len == b.len());
    let mut flags = Vec::with_capacity(alloc, len)?;
    for i in 0..len {
        flags.push(strings_pass::<F>(a.get(i), b.get(i)))?;
    }
    let valid = a.valid().and(alloc, b.valid())?;
    BooleanArray::from_flags(alloc, flags.as_slice(), valid)
}

/// Row by row whether the first Boolean is less, null where one is null.
pub fn boolean_less(
    alloc: Global,
    a: &BooleanArray,
    b: &BooleanArray,
) -> Result<BooleanArray, AllocError>
    requires { length a.now ≡ length b.now }
    ensures { IfOk result (λ r. r ≡ zip2 (test_row less) a.now b.now) }
{
    prove!(a.len() == b.len());
    let differ = a.truth().xor(alloc, b.truth())?;
    let flags = differ.and(alloc, b.truth())?;
    let valid = a.valid().and(alloc, b.valid())?;
    BooleanArray::masked(alloc, &flags, valid)
}

/// Row by row whether two Booleans are equal, null where one is null.
pub fn boolean_equal(
    alloc: Global,
    a: &BooleanArray,
    b: &BooleanArray,
) -> Result<BooleanArray, AllocError>
    requires { length a.now ≡ length b.now }
    ensures { IfOk result (λ r. r ≡ zip2 (test_row equal) a.now b.now) }
{
    prove!(a.len() == b.len());
    let differ = a.truth().xor(alloc, b.truth())?;
    let flags = differ.not(alloc)?;
    let valid = a.valid().and(alloc, b.valid())?;
    BooleanArray::masked(alloc, &flags, valid)
}
