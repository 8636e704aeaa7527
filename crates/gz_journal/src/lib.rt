//! A journal: a list of entries, to which requests append as they are judged.
//!
//! ```text
//! let mut journal = JournalState::new(alloc);
//! let landed = journal.append(attempt, content)?;              // where it stands, or why it doesn't
//! let bytes = journal.read_at(0, 65_536)?;                     // from an offset on, at most so many bytes
//! let judged = judge(journal.end(), journal.registers(), &request)?;     // the same answer, and nothing lands
//! ```
#![tactic(auto)]

mod journal;
mod judgement;
mod laws;
mod request;

pub use journal::JournalState;
pub use judgement::{Judged, Landed, judge};
pub use laws::judgements_land;
pub use request::Request;
