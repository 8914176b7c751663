//! Loops over slices of numbers.
ghost use Rattle.std.specs.Prelude.{◌≡◌, map, replicate, IfOk};
ghost use Rattle.std.specs.Simd.Lanes.{zip2};
ghost use Rattle.px_semantics.specs.Bitwise.{complement};

use px_integers::{Integer, Operation};
use std::alloc::{AllocError, Global};

/// Place by place the operation on both. The shorter list ends it.
pub fn elementwise_values<T: Integer, O: Operation<T>>(
    alloc: Global,
    a: &[T],
    b: &[T],
) -> Result<Vec<T>, AllocError>
    ensures { IfOk result (λ v. map T.integer v.items ≡ zip2 O.meaning (map T.integer a.now) (map T.integer b.now)) }
{
    a.iter()
        .zip(b)
        .map(|(x, y)| O::apply(*x, *y))
        .collect(alloc)
}

/// The operation on one number and each number of a list.
pub fn scalar_on_left<T: Integer, O: Operation<T>>(
    alloc: Global,
    x: T,
    b: &[T],
) -> Result<Vec<T>, AllocError>
    ensures { IfOk result (λ v. map T.integer v.items ≡ map (O.meaning (T.integer x)) (map T.integer b.now)) }
{
    b.iter().map(|y| O::apply(x, *y)).collect(alloc)
}

/// The operation on each number of a list and one number.
pub fn scalar_on_right<T: Integer, O: Operation<T>>(
    alloc: Global,
    a: &[T],
    y: T,
) -> Result<Vec<T>, AllocError>
    ensures { IfOk result (λ v. map T.integer v.items ≡ map (λ x. O.meaning x (T.integer y)) (map T.integer a.now)) }
{
    a.iter().map(|x| O::apply(*x, y)).collect(alloc)
}

/// The complement of each number.
pub fn complements<T: Integer>(alloc: Global, a: &[T]) -> Result<Vec<T>, AllocError>
    ensures { IfOk result (λ v. map T.integer v.items ≡ map (complement T.value_type) (map T.integer a.now)) }
{
    a.iter().map(|x| x.bits_not()).collect(alloc)
}

/// `len` times the same number.
pub fn copies<T: Integer>(alloc: Global, x: T, len: usize) -> Result<Vec<T>, AllocError>
    ensures { IfOk result (λ v. v.items ≡ replicate len x) }
{
    (0..len).map(|_| x).collect(alloc)
}
