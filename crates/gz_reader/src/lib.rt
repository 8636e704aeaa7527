//! A reader of a journal, as the theorem of exactly once needs it: what a reader of a text accepts, where producers
//! and values are numbers and a text is the list of its messages. It has definitions and laws alone, and no code.
//!
//! The laws say that this reader is the release rule of journals: `a_reader_accepts_what_is_released` for whole texts,
//! `a_resumed_reader_accepts_the_rest` for a sequencer that goes on from a checkpoint. So what is proved of it holds of
//! every sequencer that is fed a journal's bytes.
#![tactic(auto)]

mod laws;

pub use laws::{
    a_coding_tells_producers_apart, a_reader_accepts_what_is_released,
    a_resumed_reader_accepts_the_rest,
};
