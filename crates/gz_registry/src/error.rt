//! Why a call on a registry is refused.
ghost use Rattle.std.specs.Prelude.{◌≡◌};

use gz_label::NoMemory;
use std::alloc::{AllocError, AllocFailed};
use std::error::Error;
use std::fmt;

/// Why a call on a registry is refused.
#[derive(Debug, Drop)]
pub enum RegistryError {
    /// 64 members have joined, those of the start and expired ones counted.
    MembersFull,
    /// No member of the name has a live lease.
    NoMember,
    /// The revision is at its end, 2^40 - 1.
    KeysEnd,
    /// Memory ran out.
    NoMemory,
}

impl fmt::Display for RegistryError {
    fn fmt<W: fmt::Write>(&self, f: &mut fmt::Formatter<W>) -> fmt::Result {
        match self {
            RegistryError::MembersFull => write!(f, "64 members have joined"),
            RegistryError::NoMember => write!(f, "no member of the name has a live lease"),
            RegistryError::KeysEnd => write!(f, "the revision is at its end"),
            RegistryError::NoMemory => write!(f, "out of memory"),
        }
    }
}

impl Error for RegistryError {}

impl From<NoMemory> for RegistryError {
    ghost use Rattle.std.specs.Prelude.{◌≡◌};
    ghost use Rattle.gz_registry.specs.declared.error.RegistryError.TheVariants.{NoMemory};

    ghost from_gives = { λ _ e. e ≡ NoMemory };

    fn from(_e: NoMemory) -> RegistryError {
        RegistryError::NoMemory
    }
}

impl From<AllocError> for RegistryError {
    ghost use Rattle.std.specs.Prelude.{◌≡◌};
    ghost use Rattle.gz_registry.specs.declared.error.RegistryError.TheVariants.{NoMemory};

    ghost from_gives = { λ _ e. e ≡ NoMemory };

    fn from(_e: AllocError) -> RegistryError {
        RegistryError::NoMemory
    }
}

impl<T: Drop> From<AllocFailed<T>> for RegistryError {
    ghost use Rattle.std.specs.Prelude.{◌≡◌};
    ghost use Rattle.gz_registry.specs.declared.error.RegistryError.TheVariants.{NoMemory};

    ghost from_gives = { λ _ e. e ≡ NoMemory };

    fn from(_e: AllocFailed<T>) -> RegistryError {
        RegistryError::NoMemory
    }
}
