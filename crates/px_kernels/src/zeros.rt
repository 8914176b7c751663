//! Which numbers are 0.
ghost use Rattle.std.specs.Prelude.{◌≡◌, map, not, IfOk};
ghost use Rattle.px_semantics.specs.Arithmetic.{is_zero};

use px_integers::Integer;
use std::alloc::{AllocError, Global};

/// Whether the number is not 0.
fn is_nonzero<T: Integer>(x: T) -> bool
    ensures { result ≡ not (is_zero (T.integer x)) }
{
    !x.is_same(T::zero())
}

/// Place by place whether the number is not 0.
pub fn nonzero_flags<T: Integer>(alloc: Global, values: &[T]) -> Result<Vec<bool>, AllocError>
    ensures { IfOk result (λ v. v.items ≡ map (λ z. not (is_zero z)) (map T.integer values.now)) }
{
    values.iter().map(|x| is_nonzero(*x)).collect(alloc)
}
