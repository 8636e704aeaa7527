//! The account of a shard in a run over journals, which is what the promise of `gz_promise` speaks of: its sources'
//! committed messages, its commits with their offsets and states, its store, and what readers of its outputs accept.
//! It has definitions and laws alone, and no code.
#![tactic(auto)]

mod laws;

pub use laws::{a_shard_keeps_the_promise, any_numbers_will_do, numbers_are_read_back};
