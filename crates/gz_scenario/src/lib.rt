//! Scenarios: each line is an event, and the first one has the specifications that it begins with.
//!
//! ```text
//! match read_event(alloc, number, line) {
//!     Ok(event) => { .. }                                      // print_event gives a line that reads back
//!     Err(error) => { .. }                                     // error.print(alloc): `line 7: bad field messages[2].clock`
//! }
//! ```
#![tactic(auto)]

mod change;
mod error;
mod event;
mod print;
mod publish;
mod read;

pub use error::ScenarioError;
pub use event::{Draft, Drafts, Event, Flag, Join, MemberKind, Publish};
pub use print::{
    print_apply, print_converge, print_event, print_expire, print_join, print_publish, print_settle,
};
pub use read::read_event;
