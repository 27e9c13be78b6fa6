//! The error of reading a line.
ghost use Rattle.std.specs.Prelude.{◌≡◌, Some, alloc_error};
ghost use Rattle.script.specs.Lines.{error_text};
ghost use Rattle.script.specs.declared.error.LineError.TheVariants.{OutOfMemory};

use std::alloc::{AllocError, AllocFailed};
use std::error::Error;
use std::fmt;

/// Why a line was not read.
#[derive(Clone, Copy, Debug, PartialEq, Eq)]
pub enum LineError {
    /// The line can't be read.
    Invalid,
    OutOfMemory(AllocError),
}

/// What `?` makes of a failed `push`.
impl<T: Drop> From<AllocFailed<T>> for LineError {
    ghost from_gives = { λ _ e. e ≡ OutOfMemory alloc_error };

    fn from(failed: AllocFailed<T>) -> LineError {
        LineError::OutOfMemory(failed.into())
    }
}

impl fmt::Display for LineError {
    ghost output = { λ e. Some (error_text e) };

    fn fmt<W: fmt::Write>(&self, f: &mut fmt::Formatter<W>) -> fmt::Result {
        match self {
            LineError::Invalid => write!(f, "invalid line"),
            LineError::OutOfMemory(_) => write!(f, "memory allocation failed"),
        }
    }
}

impl Error for LineError {}
