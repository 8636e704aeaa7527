//! Errors.
ghost use Rattle.std.specs.Prelude.{◌≡◌};

use gz_label::NoMemory;
use std::alloc::{AllocError, AllocFailed};
use std::error::Error;
use std::fmt;

/// Why an accepted operation wasn't applied.
#[derive(Clone, Copy, Debug, PartialEq, Eq)]
pub enum FsmError {
    /// Its own condition fails.
    BadOp,
    /// Memory ran out.
    NoMemory,
}

/// Why there is no next operation.
#[derive(Clone, Copy, Debug, PartialEq, Eq)]
pub enum RecordError {
    /// Its number would be above 2^62.
    SeqEnd,
    /// Memory ran out.
    NoMemory,
}

impl From<NoMemory> for FsmError {
    ghost use Rattle.std.specs.Prelude.{◌≡◌};
    ghost use Rattle.gz_recovery.specs.declared.error.FsmError.TheVariants.{NoMemory};

    ghost from_gives = { λ _ e. e ≡ NoMemory };

    fn from(_e: NoMemory) -> FsmError {
        FsmError::NoMemory
    }
}

impl From<NoMemory> for RecordError {
    ghost use Rattle.std.specs.Prelude.{◌≡◌};
    ghost use Rattle.gz_recovery.specs.declared.error.RecordError.TheVariants.{NoMemory};

    ghost from_gives = { λ _ e. e ≡ NoMemory };

    fn from(_e: NoMemory) -> RecordError {
        RecordError::NoMemory
    }
}

impl From<AllocError> for FsmError {
    ghost use Rattle.std.specs.Prelude.{◌≡◌};
    ghost use Rattle.gz_recovery.specs.declared.error.FsmError.TheVariants.{NoMemory};

    ghost from_gives = { λ _ e. e ≡ NoMemory };

    fn from(_e: AllocError) -> FsmError {
        FsmError::NoMemory
    }
}

impl<T: Drop> From<AllocFailed<T>> for FsmError {
    ghost use Rattle.std.specs.Prelude.{◌≡◌};
    ghost use Rattle.gz_recovery.specs.declared.error.FsmError.TheVariants.{NoMemory};

    ghost from_gives = { λ _ e. e ≡ NoMemory };

    fn from(_e: AllocFailed<T>) -> FsmError {
        FsmError::NoMemory
    }
}

impl fmt::Display for FsmError {
    fn fmt<W: fmt::Write>(&self, f: &mut fmt::Formatter<W>) -> fmt::Result {
        match self {
            FsmError::BadOp => write!(f, "bad operation"),
            FsmError::NoMemory => write!(f, "out of memory"),
        }
    }
}

impl fmt::Display for RecordError {
    fn fmt<W: fmt::Write>(&self, f: &mut fmt::Formatter<W>) -> fmt::Result {
        match self {
            RecordError::SeqEnd => write!(f, "the numbers of operations end"),
            RecordError::NoMemory => write!(f, "out of memory"),
        }
    }
}

impl Error for FsmError {}

impl Error for RecordError {}
