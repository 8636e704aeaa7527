//! Why a call on a space of keys is refused.
ghost use Rattle.std.specs.Prelude.{◌≡◌};

use gz_label::{Name, NoMemory};
use std::alloc::{AllocError, AllocFailed};
use std::error::Error;
use std::fmt;

/// Why a call on a space of keys is refused.
#[derive(Debug, Drop)]
pub enum KeyError {
    /// The key's last write has this revision, 0 where the key is absent, and another one was expected.
    CompareFailed { key: Name, mod_revision: u64 },
    /// The revision is at its end, 2^40 - 1.
    KeysEnd,
    /// No such lease is live.
    NoLease,
    /// The mirror has one revision, and the change another, which is above the next one.
    Skipped { have: u64, got: u64 },
    /// Memory ran out.
    NoMemory,
}

impl fmt::Display for KeyError {
    fn fmt<W: fmt::Write>(&self, f: &mut fmt::Formatter<W>) -> fmt::Result {
        match self {
            KeyError::CompareFailed { key, mod_revision } => write!(
                f,
                "{key} has mod revision {mod_revision}"
            ),
            KeyError::KeysEnd => write!(f, "the revision is at its end"),
            KeyError::NoLease => write!(f, "no such lease is live"),
            KeyError::Skipped { have, got } => write!(f, "revision {got} comes behind {have}"),
            KeyError::NoMemory => write!(f, "out of memory"),
        }
    }
}

impl Error for KeyError {}

impl From<NoMemory> for KeyError {
    ghost use Rattle.std.specs.Prelude.{◌≡◌};
    ghost use Rattle.gz_keyspace.specs.declared.error.KeyError.TheVariants.{NoMemory};

    ghost from_gives = { λ _ e. e ≡ NoMemory };

    fn from(_e: NoMemory) -> KeyError {
        KeyError::NoMemory
    }
}

impl From<AllocError> for KeyError {
    ghost use Rattle.std.specs.Prelude.{◌≡◌};
    ghost use Rattle.gz_keyspace.specs.declared.error.KeyError.TheVariants.{NoMemory};

    ghost from_gives = { λ _ e. e ≡ NoMemory };

    fn from(_e: AllocError) -> KeyError {
        KeyError::NoMemory
    }
}

impl<T: Drop> From<AllocFailed<T>> for KeyError {
    ghost use Rattle.std.specs.Prelude.{◌≡◌};
    ghost use Rattle.gz_keyspace.specs.declared.error.KeyError.TheVariants.{NoMemory};

    ghost from_gives = { λ _ e. e ≡ NoMemory };

    fn from(_e: AllocFailed<T>) -> KeyError {
        KeyError::NoMemory
    }
}
