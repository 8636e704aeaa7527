//! Why specifications are refused.

use gz_fields::FieldError;
use gz_label::{Blob, NoMemory};
use std::alloc::{AllocError, AllocFailed};
use std::error::Error;
use std::fmt;

/// Why specifications are refused. A path names the first offender in reading order, as
/// `shards[0].sources[1].journal`; it begins at the outermost object, and is empty where that is none.
#[derive(Debug, Drop)]
pub enum SpecError {
    /// One of them is refused by itself. Out of memory is told by its own variant.
    Field(FieldError),
    /// No journal has the name, or the one that has it holds content of another type.
    NoJournal { path: Blob },
    /// The outputs of a shard reach its own sources.
    Cycle { path: Blob },
    /// Memory ran out.
    NoMemory,
}

impl fmt::Display for SpecError {
    fn fmt<W: fmt::Write>(&self, f: &mut fmt::Formatter<W>) -> fmt::Result {
        match self {
            SpecError::Field(field) => write!(f, "{field}"),
            SpecError::NoJournal { path } => write!(f, "no journal {path}"),
            SpecError::Cycle { path } => write!(f, "cycle {path}"),
            SpecError::NoMemory => write!(f, "out of memory"),
        }
    }
}

impl Error for SpecError {}

impl From<FieldError> for SpecError {
    ghost use Rattle.std.specs.Prelude.{◌≡◌};
    ghost use Rattle.gz_links.specs.Outcomes.{of_field};

    ghost from_gives = { λ error e. e ≡ of_field error };

    fn from(error: FieldError) -> SpecError {
        match error {
            FieldError::NotJson => SpecError::Field(FieldError::NotJson),
            FieldError::BadField { path } => SpecError::Field(FieldError::BadField { path }),
            FieldError::BadName { path } => SpecError::Field(FieldError::BadName { path }),
            FieldError::BadNumber { path } => SpecError::Field(FieldError::BadNumber { path }),
            FieldError::Unsupported { path } => SpecError::Field(FieldError::Unsupported { path }),
            FieldError::Twice { path } => SpecError::Field(FieldError::Twice { path }),
            FieldError::NoMemory => SpecError::NoMemory,
        }
    }
}

impl From<NoMemory> for SpecError {
    ghost use Rattle.std.specs.Prelude.{◌≡◌};
    ghost use Rattle.gz_links.specs.declared.error.SpecError.TheVariants.{NoMemory};

    ghost from_gives = { λ _ e. e ≡ NoMemory };

    fn from(_e: NoMemory) -> SpecError {
        SpecError::NoMemory
    }
}

impl From<AllocError> for SpecError {
    ghost use Rattle.std.specs.Prelude.{◌≡◌};
    ghost use Rattle.gz_links.specs.declared.error.SpecError.TheVariants.{NoMemory};

    ghost from_gives = { λ _ e. e ≡ NoMemory };

    fn from(_e: AllocError) -> SpecError {
        SpecError::NoMemory
    }
}

impl<T: Drop> From<AllocFailed<T>> for SpecError {
    ghost use Rattle.std.specs.Prelude.{◌≡◌};
    ghost use Rattle.gz_links.specs.declared.error.SpecError.TheVariants.{NoMemory};

    ghost from_gives = { λ _ e. e ≡ NoMemory };

    fn from(_e: AllocFailed<T>) -> SpecError {
        SpecError::NoMemory
    }
}
