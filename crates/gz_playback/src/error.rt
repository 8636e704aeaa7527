//! Errors.
use gz_label::NoMemory;
use std::error::Error;
use std::fmt;

/// Why bytes of a log weren't played.
#[derive(Clone, Copy, Debug, PartialEq, Eq)]
pub enum PlayError {
    /// The frame at this offset, in bytes of the log, has another form, is no operation, or is an accepted operation
    /// whose own condition fails.
    BadLog { offset: u64 },
    /// Memory ran out.
    NoMemory,
}

impl From<NoMemory> for PlayError {
    ghost use Rattle.std.specs.Prelude.{◌≡◌};
    ghost use Rattle.gz_playback.specs.declared.error.PlayError.TheVariants.{NoMemory};

    ghost from_gives = { λ _ e. e ≡ NoMemory };

    fn from(_e: NoMemory) -> PlayError {
        PlayError::NoMemory
    }
}

impl fmt::Display for PlayError {
    fn fmt<W: fmt::Write>(&self, f: &mut fmt::Formatter<W>) -> fmt::Result {
        match self {
            PlayError::BadLog { offset } => write!(f, "bad log at {offset}"),
            PlayError::NoMemory => write!(f, "out of memory"),
        }
    }
}

impl Error for PlayError {}
