//! The one fault of reading and writing.

use thiserror::Error;

/// A read or a write that failed. The object that failed has counted it.
#[derive(Clone, Copy, Debug, PartialEq, Eq, Error)]
#[error("failed")]
pub struct Failed {}
