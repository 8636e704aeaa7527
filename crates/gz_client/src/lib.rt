//! What a client appends, and what it is told.
//!
//! A publish becomes one request to its journal, with the client's name and the number that it gave the request. The
//! journal judges it unless there is something to refuse before:
//!
//! ```
//! let request = request_of(alloc, number, &publish)?;
//! let answer = match refusal(is_taken, framing, request.content.len() as u64) {
//!     Some(answer) => answer,
//!     None => Answer::Judged(journal.land(&request)?),
//! };
//! ```
#![tactic(auto)]

mod answer;
mod content;
mod request;

pub use answer::{Answer, MAX_APPEND, print_labels, refusal};
pub use request::request_of;
