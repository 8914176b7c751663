//! Columns as JSON values, and the looks into a value that forms need.
#![tactic(auto)]

mod access;
mod build;
mod digits;
mod read;
mod value_type;
mod write;

pub use access::{
    integer_of, items_of, number, only_member, pair_of, three_fields, triple_of, two_fields,
    two_lists,
};
pub use build::{pair, single_member, text_value, triple};
pub use digits::{integer, integer_value};
pub use read::{column_of_value, columns_of_values};
pub use value_type::{value_type_name, value_type_named};
pub use write::{number_value, value_of_column, values_of_columns};
