//! Why a field is refused.

use gz_label::{Blob, NoMemory};
use std::alloc::{AllocError, AllocFailed};
use std::error::Error;
use std::fmt;

/// Why a text isn't the JSON that is asked for. The path names the first offender in reading order, as
/// `shards[0].sources[1].journal`; it begins at the outermost object, and is empty where that is none.
#[derive(Debug, Drop)]
pub enum FieldError {
    /// The text isn't JSON.
    NotJson,
    /// A field is missing, unknown, or of another JSON type than is asked for.
    BadField { path: Blob },
    /// A name or an id isn't of its form, or is reserved.
    BadName { path: Blob },
    /// A number is out of its range, or a list has too many items.
    BadNumber { path: Blob },
    /// The text is of its form, and says what isn't supported.
    Unsupported { path: Blob },
    /// A name was used before.
    Twice { path: Blob },
    /// Memory ran out.
    NoMemory,
}

impl fmt::Display for FieldError {
    fn fmt<W: fmt::Write>(&self, f: &mut fmt::Formatter<W>) -> fmt::Result {
        match self {
            FieldError::NotJson => write!(f, "not JSON"),
            FieldError::BadField { path } => write!(f, "bad field {path}"),
            FieldError::BadName { path } => write!(f, "bad name {path}"),
            FieldError::BadNumber { path } => write!(f, "bad number {path}"),
            FieldError::Unsupported { path } => write!(f, "unsupported {path}"),
            FieldError::Twice { path } => write!(f, "used before {path}"),
            FieldError::NoMemory => write!(f, "out of memory"),
        }
    }
}

impl Error for FieldError {}

impl From<NoMemory> for FieldError {
    ghost use Rattle.std.specs.Prelude.{◌≡◌};
    ghost use Rattle.gz_fields.specs.declared.error.FieldError.TheVariants.{NoMemory};

    ghost from_gives = { λ _ e. e ≡ NoMemory };

    fn from(_e: NoMemory) -> FieldError {
        FieldError::NoMemory
    }
}

impl From<AllocError> for FieldError {
    ghost use Rattle.std.specs.Prelude.{◌≡◌};
    ghost use Rattle.gz_fields.specs.declared.error.FieldError.TheVariants.{NoMemory};

    ghost from_gives = { λ _ e. e ≡ NoMemory };

    fn from(_e: AllocError) -> FieldError {
        FieldError::NoMemory
    }
}

impl<T: Drop> From<AllocFailed<T>> for FieldError {
    ghost use Rattle.std.specs.Prelude.{◌≡◌};
    ghost use Rattle.gz_fields.specs.declared.error.FieldError.TheVariants.{NoMemory};

    ghost from_gives = { λ _ e. e ≡ NoMemory };

    fn from(_e: AllocFailed<T>) -> FieldError {
        FieldError::NoMemory
    }
}
