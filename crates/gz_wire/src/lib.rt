//! The messages that nodes of a cluster send one another.
//!
//! ```text
//! let mut sends = Sends::new(alloc);
//! let msg = Msg::Held { journal, epoch: 4, end: 3 };
//! let kind = msg.kind();                                      // what a trace and a table of spellings ask for
//! sends.push(Send { to: primary, msg })?;
//! ```
#![tactic(auto)]

mod copies;
mod kind;
mod lists;
mod msg;
mod trace;

pub use kind::Kind;
pub use lists::{Compares, Names, Sends};
pub use msg::{Msg, Send};
