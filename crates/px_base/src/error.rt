//! Why a call of the planner gives no answer.
ghost use Rattle.std.specs.Prelude.{◌≡◌, codes, ◌++◌, Some, List, ℕ};

use crate::text::SmallStr;
use std::alloc::{AllocError, AllocFailed};
use std::error::Error;
use std::fmt;

/// Why a call gives no answer. `OutOfMemory` may come from every call that takes memory; each other
/// error only by the cause that the call's contract states. It stands for Polars' `PolarsError`.
#[derive(Debug, Drop, PartialEq, Eq)]
pub enum PlanError {
    /// No memory was left.
    OutOfMemory,
    /// The expression names a column that the schema lacks, by this name.
    ColumnNotFound(SmallStr),
    /// An expression, a type or a value for which there is no rule.
    InvalidOperation,
    /// This name comes twice.
    Duplicate(SmallStr),
    /// Lengths that do not broadcast.
    ShapeMismatch,
    /// A strict cast of a value that its target lacks.
    InvalidCast,
    /// A row that is not there.
    OutOfBounds,
    /// A column of 2^32 rows or more.
    TooLong,
    /// A kernel gave no column, or one of another type than it declares.
    KernelFailed,
}

impl fmt::Display for PlanError {
    ghost use Rattle.px_base.specs.ErrorTexts.{error_text};

    ghost output = { λ e. Some (error_text e) };

    fn fmt<W: fmt::Write>(&self, f: &mut fmt::Formatter<W>) -> fmt::Result {
        match self {
            PlanError::OutOfMemory => write!(f, "OutOfMemory"),
            PlanError::ColumnNotFound(name) => write!(f, "ColumnNotFound: {}", name.as_str()),
            PlanError::InvalidOperation => write!(f, "InvalidOperation"),
            PlanError::Duplicate(name) => write!(f, "Duplicate: {}", name.as_str()),
            PlanError::ShapeMismatch => write!(f, "ShapeMismatch"),
            PlanError::InvalidCast => write!(f, "InvalidCast"),
            PlanError::OutOfBounds => write!(f, "OutOfBounds"),
            PlanError::TooLong => write!(f, "TooLong"),
            PlanError::KernelFailed => write!(f, "KernelFailed"),
        }
    }
}

impl Error for PlanError {}

impl From<AllocError> for PlanError {
    ghost use Rattle.std.specs.Prelude.{◌≡◌};
    ghost use Rattle.px_base.specs.declared.error.PlanError.TheVariants.{OutOfMemory};

    ghost from_gives = { λ _ e. e ≡ OutOfMemory };

    fn from(_e: AllocError) -> PlanError {
        PlanError::OutOfMemory
    }
}

impl<T: Drop> From<AllocFailed<T>> for PlanError {
    ghost use Rattle.std.specs.Prelude.{◌≡◌};
    ghost use Rattle.px_base.specs.declared.error.PlanError.TheVariants.{OutOfMemory};

    ghost from_gives = { λ _ e. e ≡ OutOfMemory };

    fn from(_e: AllocFailed<T>) -> PlanError {
        PlanError::OutOfMemory
    }
}
