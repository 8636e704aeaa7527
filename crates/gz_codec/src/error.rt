//! Why bytes are no field.

use gz_label::NoMemory;
use std::alloc::{AllocError, AllocFailed};
use std::error::Error;
use std::fmt;

/// Why fields can't be read.
#[derive(Clone, Copy, Debug, PartialEq, Eq)]
pub enum FieldError {
    /// The field of this number, counted from 1, is the first that isn't spelled by its kind.
    Bad { field: u8 },
    /// Memory ran out.
    NoMemory,
}

impl fmt::Display for FieldError {
    fn fmt<W: fmt::Write>(&self, f: &mut fmt::Formatter<W>) -> fmt::Result {
        match self {
            FieldError::Bad { field } => write!(f, "bad field {field}"),
            FieldError::NoMemory => write!(f, "out of memory"),
        }
    }
}

impl Error for FieldError {}

impl From<AllocError> for FieldError {
    ghost use Rattle.std.specs.Prelude.{◌≡◌};
    ghost use Rattle.gz_codec.specs.declared.error.FieldError.TheVariants.{NoMemory};

    ghost from_gives = { λ _ e. e ≡ NoMemory };

    fn from(_e: AllocError) -> FieldError {
        FieldError::NoMemory
    }
}

impl<T: Drop> From<AllocFailed<T>> for FieldError {
    ghost use Rattle.std.specs.Prelude.{◌≡◌};
    ghost use Rattle.gz_codec.specs.declared.error.FieldError.TheVariants.{NoMemory};

    ghost from_gives = { λ _ e. e ≡ NoMemory };

    fn from(_e: AllocFailed<T>) -> FieldError {
        FieldError::NoMemory
    }
}

impl From<NoMemory> for FieldError {
    ghost use Rattle.std.specs.Prelude.{◌≡◌};
    ghost use Rattle.gz_codec.specs.declared.error.FieldError.TheVariants.{NoMemory};

    ghost from_gives = { λ _ e. e ≡ NoMemory };

    fn from(_e: NoMemory) -> FieldError {
        FieldError::NoMemory
    }
}
