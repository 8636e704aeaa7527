//! Placements: which members hold which items, within the members' limits and across zones.
//!
//! ```text
//! let Some(problem) = Problem::of(items, members) else { .. };    // None where a limit is passed or a name stands twice
//! let (placement, cut) = place(alloc, &problem, &now, &goal)?;    // as many replicas as any placement has
//! for (item, member) in placement.pairs() { .. }
//! ```
//!
//! It is a maximum flow, found by augmenting paths; a minimum cut shows that there is no greater one.
#![tactic(auto)]

mod choice;
mod feasible;
mod laws;
mod network;
mod plain;
mod problem;
mod search;
mod solve;
mod table;
mod tally;

pub use choice::place;
pub use laws::{no_placement_passes_a_cut, no_table_passes_a_cut};
pub use plain::greatest_of;
pub use problem::{Cut, Item, Member, Placement, Problem};
