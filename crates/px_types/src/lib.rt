//! The types of columns and of values, their common types, schemas, operators and options.
#![tactic(auto)]

mod any_value;
mod class;
mod dtype;
mod duplicate;
mod function;
mod hashing;
mod laws;
mod operator;
mod options;
mod same;
mod schema;
mod supertype;
mod type_parts;
mod value_type;

pub use any_value::{AnyValue, materialize_dyn_int};
pub use dtype::{DataType, Field, FieldList, TypeList};
pub use function::{BitwiseFunction, FusedOperator};
pub use laws::{
    common_is_commutative, common_is_idempotent, first_repeated_is_found, null_is_neutral,
    null_is_neutral_in_supertype, supertype_is_commutative, supertype_is_idempotent,
};
pub use operator::Operator;
pub use options::{ApplyOptions, CastingRules, FmtName, FunctionFlags, FunctionOptions};
pub use px_base::{Boxed, Items, List, PlanError, SmallStr, Steps, TryClone, boxed};
pub use schema::Schema;
pub use supertype::try_get_supertype;
pub use type_parts::{CastOptions, ClosedInterval, QuantileMethod, TimeUnit, UnknownKind};
pub use value_type::{ValueType, default_type};

#[cfg(test)]
mod tests;
