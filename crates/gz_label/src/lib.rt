//! Names, bytes and labels, which contracts see as lists; entries of journals, and keys with their writes.
//!
//! ```text
//! let name = Name::read(alloc, b"src/a")?;                     // UTF-8 of at most 1,024 bytes
//! let set = LabelSet::read(alloc, b"zone=eu,class=hot")?;      // sorted, each label once, at most 64
//! let selector = Selector::read(alloc, b"zone=eu,!cold")?;      // each term has to hold
//! if selector.matches(&set) { .. }
//! ```
#![tactic(auto)]

mod blob;
mod entry;
mod items;
mod keys;
mod label;
mod label_set;
mod name;
mod no_memory;
mod selector;

pub use blob::Blob;
pub use entry::{Attempt, Entries, Entry, Image};
pub use keys::{Change, Changes, Compare, KeyWrite, Writes};
pub use label::{Label, is_label_name, is_label_value};
pub use label_set::LabelSet;
pub use name::{LabelError, Name};
pub use no_memory::NoMemory;
pub use selector::{Selector, Term};
