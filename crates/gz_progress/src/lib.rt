//! A shard can always go on: from wherever a run over journals has come to, a process that begins anew plays the log,
//! hands off, writes the last commit's acknowledgements and is ready to read, and what is released
//! then is committed. It has definitions and laws alone, and no
//! code.
#![tactic(auto)]

mod laws;

pub use laws::{the_next_process_goes_on, what_is_released_is_committed};
