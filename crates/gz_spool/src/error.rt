//! Why an entry isn't put at the end of a spool.
use std::error::Error;
use std::fmt;

/// Why an entry isn't put at the end of a spool.
#[derive(Clone, Copy, Debug, PartialEq, Eq)]
pub enum SpoolError {
    /// The entry stands behind the end, which is this one.
    Gap { end: u64 },
    /// The entry stands before the end, which is this one.
    Old { end: u64 },
}

impl fmt::Display for SpoolError {
    fn fmt<W: fmt::Write>(&self, f: &mut fmt::Formatter<W>) -> fmt::Result {
        match self {
            SpoolError::Gap { end } => write!(f, "there is a gap behind the spool's end, {end}"),
            SpoolError::Old { end } => write!(
                f,
                "the spool is there already, up to its end, {end}"
            ),
        }
    }
}

impl Error for SpoolError {}
