//! Laws of floor division, as functions that do nothing.
ghost use Rattle.px_integers.specs.Laws.{FloorQuotientIsOne, FloorQuotientIsTheOnlyOne};

/// The remainder of floor division is 0, or has the sign of the divisor and is smaller.
pub fn floor_quotient_is_one()
    ensures { FloorQuotientIsOne }
{}

/// No other integer leaves so little.
pub fn floor_quotient_is_the_only_one()
    ensures { FloorQuotientIsTheOnlyOne }
{}
