//! Version 1 identifiers (RFC 9562, section 5.1) that carry a producer, a clock and flags.
//!
//! ```text
//! let mut producer = Producer::new(ProducerId::client(7)?);    // None past the last number
//! let clock = producer.tick(now)?;                             // above all that it gave before
//! let id = build(producer.id(), clock, Flags::new(1)?);        // bits 0 to 1,023
//! let parts = split(id)?;                                      // the same producer, clock and flags
//! ```
#![tactic(auto)]

mod clock;
mod identifier;
mod parts;
mod producer;

pub use clock::{ClockEnd, MsgClock, Producer};
pub use identifier::{build, split, split_undoes_build};
pub use parts::{Flags, Parts};
pub use producer::ProducerId;
