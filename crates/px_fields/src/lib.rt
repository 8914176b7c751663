//! The fields that functions answer, and answers by the fields of a function's inputs.
#![tactic(auto)]

mod field_types;
mod get_field;
mod mapper;
mod reshape;
mod rule;
mod rule_type;
mod type_changes;

pub use get_field::GetField;
pub use mapper::FieldsMapper;
