//! Expressions as short texts, for tests: each input before its node, words with a space between.
#![tactic(auto)]

mod columns;
mod fields;
mod read;
mod words;
mod write;

pub use columns::{read_column, write_column};
pub use fields::{add_field, fields_of};
pub use read::{read_expr, read_text};
pub use write::{
    write_cast, write_function, write_literal, write_operator, write_text, write_word,
};
