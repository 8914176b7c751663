//! Documents of columns and expressions, and the answers to them, as JSON values.
#![tactic(auto)]

mod document;
mod report;

pub use document::{Document, document_of, document_of_bytes};
pub use report::{error_value, line, report_of};
