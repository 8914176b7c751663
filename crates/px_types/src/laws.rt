//! Laws of common types and of names, as functions that do nothing.
ghost use Rattle.px_types.specs.Laws.{IsCommutative, IsIdempotent, HasNullAsNeutral, SupertypeIsCommutative, SupertypeIsIdempotent, SupertypeHasNullAsNeutral, FirstRepeatedIsFound};

/// The common type of value types does not depend on their order.
pub fn common_is_commutative()
    ensures { IsCommutative }
{}

/// The common type of a value type with itself is that type.
pub fn common_is_idempotent()
    ensures { IsIdempotent }
{}

/// The common type of `Null` and a value type is that type.
pub fn null_is_neutral()
    ensures { HasNullAsNeutral }
{}

/// The common type of all types does not depend on their order.
pub fn supertype_is_commutative()
    ensures { SupertypeIsCommutative }
{}

/// The common type of a type with itself is that type.
pub fn supertype_is_idempotent()
    ensures { SupertypeIsIdempotent }
{}

/// The common type of `Null` and a type is that type.
pub fn null_is_neutral_in_supertype()
    ensures { SupertypeHasNullAsNeutral }
{}

/// The first repeated name is that of the first place whose name is equal to one before it.
pub fn first_repeated_is_found()
    ensures { FirstRepeatedIsFound }
{}
