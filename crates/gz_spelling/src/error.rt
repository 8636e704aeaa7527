//! Why bytes are no message, or a message has no spelling.

use std::alloc::{AllocError, AllocFailed};
use std::error::Error;
use std::fmt;

/// Why a message has no spelling, or bytes begin with none.
#[derive(Clone, Copy, Debug, PartialEq, Eq)]
pub enum WireError {
    /// The body has more than 134,217,728 bytes, or its length says so.
    TooLong,
    /// There are fewer than the four bytes of the length, or fewer behind them than it says.
    NeedMore,
    /// The field of this number, counted from 1, is the first that isn't spelled by its kind in a message with this
    /// tag; the number after the last one stands for bytes that are left. The name of the peer is field 0 of tag 0,
    /// and a body that ends behind it lacks field 1 of tag 0.
    BadField { tag: u8, field: u8 },
    /// No kind of message has the tag.
    BadTag { tag: u8 },
    /// Memory ran out.
    NoMemory,
}

impl fmt::Display for WireError {
    fn fmt<W: fmt::Write>(&self, f: &mut fmt::Formatter<W>) -> fmt::Result {
        match self {
            WireError::TooLong => write!(f, "message too long"),
            WireError::NeedMore => write!(f, "message cut short"),
            WireError::BadField { tag, field } => {
                write!(f, "bad field {field} of a message with tag {tag}")
            }
            WireError::BadTag { tag } => write!(f, "no message has tag {tag}"),
            WireError::NoMemory => write!(f, "out of memory"),
        }
    }
}

impl Error for WireError {}

impl From<AllocError> for WireError {
    ghost use Rattle.std.specs.Prelude.{◌≡◌};
    ghost use Rattle.gz_spelling.specs.declared.error.WireError.TheVariants.{NoMemory};

    ghost from_gives = { λ _ e. e ≡ NoMemory };

    fn from(_e: AllocError) -> WireError {
        WireError::NoMemory
    }
}

impl<T: Drop> From<AllocFailed<T>> for WireError {
    ghost use Rattle.std.specs.Prelude.{◌≡◌};
    ghost use Rattle.gz_spelling.specs.declared.error.WireError.TheVariants.{NoMemory};

    ghost from_gives = { λ _ e. e ≡ NoMemory };

    fn from(_e: AllocFailed<T>) -> WireError {
        WireError::NoMemory
    }
}
