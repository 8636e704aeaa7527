//! A broker's part in one journal.
//!
//! `specs/` says what a member is and what each rule makes of it: how a primary opens, what members do for it, how an
//! append is put and acknowledged, and what is sent again. Each rule is a method of `Member`.
//!
//! ```text
//! let mut member = Member::new(alloc);
//! let sends = member.open_route(&journal, route, req)?;       // it asks the others to promise, and the store
//! let sends = member.put(&journal, entry)?;                   // an open one sends it to the others
//! let sends = member.on_held(&journal, &from, epoch, end)?;   // and its head rises with what they hold
//! ```
#![tactic(auto)]

mod choice;
mod ends;
mod keys;
mod laws;
mod member;
mod part;
mod reports;
mod sends;
mod slots;

pub use choice::Choice;
pub use ends::{HeldEnds, Reached};
pub use laws::a_stale_epoch_changes_nothing;
pub use member::Member;
pub use part::{Part, Route, StoreEnd};
pub use reports::{Report, Reports};
pub use sends::Sent;
