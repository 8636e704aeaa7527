//! Why a content isn't kept.
ghost use Rattle.std.specs.Prelude.{◌≡◌};

use crate::name::FragmentName;
use gz_label::NoMemory;
use std::error::Error;
use std::fmt;

/// Why a content isn't kept.
#[derive(Clone, Copy, Debug, PartialEq, Eq)]
pub enum FragmentError {
    /// The name's end isn't the content's length behind its begin.
    BadSpan,
    /// The name gives one sum, and the content has another.
    Differs {
        name: FragmentName,
        sum: [u8; 20],
        found: [u8; 20],
    },
    /// Memory ran out.
    NoMemory,
}

impl fmt::Display for FragmentError {
    fn fmt<W: fmt::Write>(&self, f: &mut fmt::Formatter<W>) -> fmt::Result {
        match self {
            FragmentError::BadSpan => write!(
                f,
                "the content hasn't the length that its name gives"
            ),
            FragmentError::Differs { .. } => {
                write!(f, "the content hasn't the sum that its name gives")
            }
            FragmentError::NoMemory => write!(f, "out of memory"),
        }
    }
}

impl Error for FragmentError {}

impl From<NoMemory> for FragmentError {
    ghost use Rattle.std.specs.Prelude.{◌≡◌};
    ghost use Rattle.gz_fragment.specs.declared.error.FragmentError.TheVariants.{NoMemory};

    ghost from_gives = { λ _ e. e ≡ NoMemory };

    fn from(_e: NoMemory) -> FragmentError {
        FragmentError::NoMemory
    }
}
