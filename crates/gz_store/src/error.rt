//! Errors.
use gz_label::NoMemory;
use std::error::Error;
use std::fmt;

/// Why nothing was loaded.
#[derive(Clone, Copy, Debug, PartialEq, Eq)]
pub enum LoadError {
    /// No file is at the path of the state.
    NoState,
    /// The text of the file at that path is none of a commit.
    BadState,
    /// Memory ran out.
    NoMemory,
}

impl From<NoMemory> for LoadError {
    ghost use Rattle.std.specs.Prelude.{◌≡◌};
    ghost use Rattle.gz_store.specs.declared.error.LoadError.TheVariants.{NoMemory};

    ghost from_gives = { λ _ e. e ≡ NoMemory };

    fn from(_e: NoMemory) -> LoadError {
        LoadError::NoMemory
    }
}

impl fmt::Display for LoadError {
    fn fmt<W: fmt::Write>(&self, f: &mut fmt::Formatter<W>) -> fmt::Result {
        match self {
            LoadError::NoState => write!(f, "no state"),
            LoadError::BadState => write!(f, "bad state"),
            LoadError::NoMemory => write!(f, "out of memory"),
        }
    }
}

impl Error for LoadError {}
