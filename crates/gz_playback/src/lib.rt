//! A player of recovery logs: it is fed a log's bytes in any pieces, and has the machine of the whole frames so far.
//!
//! ```text
//! let mut player = Player::new(alloc, 0, Fsm::new(alloc));
//! player.feed(player.at(), bytes)?;
//! if player.at_head(head) {
//!     // player.fsm() has the files of the whole log
//! }
//! ```
#![tactic(auto)]

mod error;
mod handing;
mod player;

pub use error::PlayError;
pub use handing::Learnt;
pub use player::Player;
