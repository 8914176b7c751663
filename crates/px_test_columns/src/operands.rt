//! Whether a type is one that a kernel takes.
ghost use Rattle.std.specs.Prelude.{◌⊎◌, IsTrue};
ghost use Rattle.px_types.specs.Integers.{IsInteger};
ghost use Rattle.px_semantics.specs.Rows.{IsBoolean};

use px_types::ValueType;

/// Whether the type is `Boolean`.
pub fn is_boolean(value_type: ValueType) -> bool
    ensures { IsTrue result → IsBoolean value_type }
{
    match value_type {
        ValueType::Boolean => true,
        _ => false,
    }
}

/// Whether the type is `Boolean` or one of integers.
pub fn is_boolean_or_integer(value_type: ValueType) -> bool
    ensures { IsTrue result → IsBoolean value_type ⊎ IsInteger value_type }
{
    match value_type {
        ValueType::Null | ValueType::String => false,
        _ => true,
    }
}
