//! Rows of one type, each of which may be null: Booleans, integers, strings.
#![tactic(auto)]

mod bitmap;
mod boolean_array;
mod integer_array;
mod integer_array_builder;
mod loops;
mod string_array;
mod string_array_builder;
mod string_data;

pub use bitmap::Bitmap;
pub use boolean_array::BooleanArray;
pub use integer_array::IntegerArray;
pub use integer_array_builder::IntegerArrayBuilder;
pub use string_array::StringArray;
pub use string_array_builder::StringArrayBuilder;
