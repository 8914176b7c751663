//! The common type of two types. The table is our own.
ghost use Rattle.std.specs.Prelude.{◌≡◌, option_map};
ghost use Rattle.std.specs.Option.{option_or};
ghost use Rattle.px_base.specs.Answer.{GivesOrMemory, AnswersOrMemory};
ghost use Rattle.px_types.specs.ValueTypes.{holds, default_type};
ghost use Rattle.px_types.specs.Classes.{is_boolean_or_integer};
ghost use Rattle.px_types.specs.Supertypes.{common_of, integer_beside, line, common_unequal, common_flat, common_type, list_of, type_or_refusal};

use crate::class::Class;
use crate::dtype::DataType;
use crate::type_parts::UnknownKind;
use crate::value_type::{ValueType, default_type};
use px_base::{PlanError, boxed};
use std::alloc::Global;

// The common type of an integer literal without a type and a value type.
fn integer_beside(v: i128, value: ValueType) -> Option<DataType>
    ensures { result ≡ integer_beside (holds value v) (is_boolean_or_integer value) value (default_type v) }
{
    if value.holds(v) {
        Some(value.dtype())
    } else if value.is_boolean_or_integer() {
        value.common_dtype(default_type(v)?)
    } else {
        None
    }
}

// The common type of two integer literals without a type.
fn of_defaults(a: i128, b: i128) -> Option<DataType>
    ensures { result ≡ common_of (default_type a) (default_type b) }
{
    default_type(a)?.common_dtype(default_type(b)?)
}

// The lines of the table that read two types in this order.
#[tactic(auto, unfolding(crate::specs::Supertypes::line))]
fn line(a: Class, b: Class) -> Option<DataType>
    ensures { result ≡ line a b }
{
    match (a, b) {
        (Class::Anything, _) => Some(DataType::Unknown(UnknownKind::Any)),
        (Class::Int128, Class::Value(v)) if v.is_boolean_or_integer() => Some(DataType::Int128),
        (Class::Float32, Class::Value(v)) if v.is_narrow() => Some(DataType::Float32),
        (Class::Float32 | Class::Float64 | Class::Float, Class::Value(v))
            if v.is_boolean_or_integer() => { Some(DataType::Float64) }
        (Class::Float32 | Class::Float64 | Class::Float, Class::Int128) => Some(DataType::Float64),
        (Class::Float32 | Class::Float, Class::Float64) => Some(DataType::Float64),
        (Class::Float, Class::Float32) => Some(DataType::Float32),
        (Class::Float, Class::Integer(_)) => Some(DataType::Float64),
        (Class::Integer(v), Class::Value(value)) => integer_beside(v, value),
        (Class::Integer(v), Class::Integer(w)) => of_defaults(v, w),
        (Class::Integer(_), Class::Int128) => Some(DataType::Int128),
        (Class::Integer(_), Class::Float32) => Some(DataType::Float32),
        (Class::Integer(_), Class::Float64) => Some(DataType::Float64),
        (Class::Str, Class::Value(ValueType::String)) => Some(DataType::String),
        _ => None,
    }
}

// The common type of two types that are not both lists.
#[tactic(auto, unfolding(crate::specs::Supertypes::common_flat))]
fn common_flat(alloc: Global, a: &DataType, b: &DataType) -> Result<Option<DataType>, PlanError>
    ensures { GivesOrMemory result (common_flat a.now b.now) }
{
    if *a == *b {
        return Ok(Some(a.try_clone(alloc)?));
    }
    match (a.class(), b.class()) {
        (Class::Value(ValueType::Null), _) => Ok(Some(b.try_clone(alloc)?)),
        (_, Class::Value(ValueType::Null)) => Ok(Some(a.try_clone(alloc)?)),
        (Class::Value(a), Class::Value(b)) => Ok(a.common_dtype(b)),
        (a, b) => Ok(either_way(a, b)),
    }
}

// The common type by a line of the table, whichever of the types comes first there.
fn either_way(a: Class, b: Class) -> Option<DataType>
    ensures { result ≡ option_or (line a b) (line b a) }
{
    match line(a, b) {
        Some(dtype) => Some(dtype),
        None => line(b, a),
    }
}

// The common type of two types, where they have one.
#[tactic(auto, unfolding(crate::specs::Supertypes::common_type))]
fn common(alloc: Global, a: &DataType, b: &DataType) -> Result<Option<DataType>, PlanError>
    ensures { GivesOrMemory result (common_type a.now b.now) }
{
    match (a, b) {
        (DataType::List(a), DataType::List(b)) => list_dtype(
            alloc,
            common(alloc, a.get(), b.get())?,
        ),
        _ => common_flat(alloc, a, b),
    }
}

// The list of a type, where there is one.
fn list_dtype(alloc: Global, inner: Option<DataType>) -> Result<Option<DataType>, PlanError>
    ensures { GivesOrMemory result (option_map list_of inner) }
{
    match inner {
        Some(dtype) => Ok(Some(DataType::List(boxed(alloc, dtype)?))),
        None => Ok(None),
    }
}

/// The common type of two types, by our own table in outline of Polars'. `InvalidOperation` where
/// they have none. Else the only error is out of memory.
pub fn try_get_supertype(alloc: Global, a: &DataType, b: &DataType) -> Result<DataType, PlanError>
    ensures { AnswersOrMemory (λ dtype. dtype) result (type_or_refusal (common_type a.now b.now)) }
{
    match common(alloc, a, b)? {
        Some(dtype) => Ok(dtype),
        None => Err(PlanError::InvalidOperation),
    }
}
