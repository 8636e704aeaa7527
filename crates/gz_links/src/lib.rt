//! Specifications as a whole: whether the journals that shards name are there, whether shards reach themselves, and
//! specifications with more of them.
//!
//! ```text
//! let specs = read_specs(alloc, text)?;
//! let all = join(alloc, &specs, &more)?;
//! ```
#![tactic(auto)]

mod by_name;
mod cluster;
mod cycles;
mod error;
mod joins;
mod levels;
mod links;

pub use cluster::{join, read_specs};
pub use cycles::first_cycle;
pub use error::SpecError;
pub use links::framing_at;
