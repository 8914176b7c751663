//! Places in a list of one row, which goes with each row of another.
ghost use Rattle.std.specs.Prelude.{◌≡◌, ◌⊎◌, ◌<◌};
ghost use Rattle.px_horizontals.specs.Places.{place_in};

/// The place of a list of `len` rows that goes with row `i` of `count`. The list has as many rows, or one.
pub fn place_in(len: usize, i: usize, count: usize) -> usize
    requires below { i < count }
    requires long { (len ≡ 1) ⊎ (len ≡ count) }
    ensures value { result ≡ place_in len i }
    ensures below { result < len }
{
    if len == 1 { 0 } else { i }
}
