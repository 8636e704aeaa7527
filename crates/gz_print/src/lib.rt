//! Specifications as JSON with every member, which reading gives back.
//!
//! ```text
//! let text = print_specs(alloc, &specs)?;
//! let same = read_part(alloc, text.as_slice())?;
//! ```
#![tactic(auto)]

mod print;

pub use print::{
    journal_values, member_value, print_journal, print_shard, print_specs, print_specs_as,
    shard_values,
};
