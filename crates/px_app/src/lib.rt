//! The program as a library: from the bytes of a document to those of a report, over any source and sink.
#![tactic(auto)]

mod bytes;
mod reply;
mod report;
mod run;
mod status;

pub use bytes::answer_bytes;
pub use px_document::{Document, document_of, error_value};
pub use px_forms::{expr_of_value, value_of_expr};
pub use px_streams::{
    Failed, MemorySink, MemorySource, Sink, Source, StdSink, StdSource, SteadySink, SteadySource,
};
pub use reply::Answer;
pub use report::report_value;
pub use run::run_document;
pub use status::{
    ANSWERED, NO_DOCUMENT, NO_MEMORY, OTHER_WORDS, READ_FAULT, REFUSED, TOO_LONG, WRITE_FAULT,
};
