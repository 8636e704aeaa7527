//! Messages, each of which is a line of JSON in a journal, and frames of fixed form.
//!
//! ```text
//! let line = print_line(alloc, &message)?;                     // {"key":..,"uuid":..,"value":..}, and a newline
//! let Some(message) = read_line(alloc, line.as_slice())? else { .. };    // None where it is no message
//! let frame = frame_fixed(alloc, content)?;                    // preceded by its magic and its length
//! let found = unframe(bytes)?;                                 // NeedMore where they are a proper prefix of a frame
//! ```
#![tactic(auto)]

mod frame;
mod laws;
mod line;
mod message;

pub use frame::{FrameError, Unframed, frame_fixed, unframe};
pub use laws::{
    frames_stand_apart, lines_read_back, messages_line_by_line, messages_of_a_prefix,
    messages_of_joined_texts,
};
pub use line::{print_line, read_line};
pub use message::{Message, Messages};
