//! Routes and lists of consumers follow the placement: what the key space says becomes the transactions that bring it
//! nearer to what `gz_alloc` places.
//!
//! ```text
//! let view = KeyView::of(alloc, &keys)?;
//! let converged = converge(alloc, &view, &goal)?;    // transactions, and the next goal
//! ```
#![tactic(auto)]

mod answer;
mod cases;
mod ids;
mod laws;
mod problem;
mod read;
mod txn;
mod view;

pub use answer::{Converged, converge};
pub use laws::{
    a_member_leaves_a_synced_route_alone, a_route_moves_towards_the_placement,
    an_answer_changes_at_most_once,
};
pub use txn::{Txn, Txns};
pub use view::{JournalView, KeyView, Listed, MemberView, ShardView, Synced};
