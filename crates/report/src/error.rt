//! Why there is no statement.
ghost use Rattle.std.specs.Prelude.{◌≡◌, Some};
ghost use Rattle.report.specs.Errors.{error_text};
ghost use Rattle.report.specs.declared.error.ReportError.TheVariants.{OutOfMemory};

use std::alloc::AllocError;
use std::error::Error;
use std::fmt;

/// Why a file has no statement.
#[derive(Debug, Drop)]
pub enum ReportError {
    /// The file is refused, for the reason that this line tells.
    Refused(String),
    OutOfMemory(AllocError),
}

impl fmt::Display for ReportError {
    ghost output = { λ error. Some (error_text error) };

    fn fmt<W: fmt::Write>(&self, f: &mut fmt::Formatter<W>) -> fmt::Result {
        match self {
            ReportError::Refused(_) => write!(f, "the file is refused"),
            // The words of `AllocError`, of whose own printing no clause says anything.
            ReportError::OutOfMemory(_) => write!(f, "memory allocation failed"),
        }
    }
}

impl Error for ReportError {}

impl From<AllocError> for ReportError {
    ghost from_gives = { λ error made. made ≡ OutOfMemory error };

    fn from(error: AllocError) -> ReportError {
        ReportError::OutOfMemory(error)
    }
}
