//! Processes of a shard over journals that keep their word: exactly once, whatever stops, moves or runs twice. It has
//! definitions and laws alone, and no code.
//!
//! A run is any list of events. Any number of processes of one shard run at once, each may end or begin anew at any
//! moment, answers come late or never, and an append lands at any later time, once, or never. Of journals nothing is
//! taken but this: they only grow; an append lands at most once, and is judged at one place with the register that
//! stands there; what is read of them is a prefix of their text.
#![tactic(auto)]

mod laws;
mod operating;

pub use laws::{
    a_commit_consumes_what_a_sequencer_releases, a_shard_is_exactly_once,
    acknowledged_before_the_next_commit, acknowledgements_are_of_commits, journals_only_grow,
    one_clock_one_message, the_author_register_fences,
};
pub use operating::{
    a_crash_leaves_no_gap, a_fenced_process_never_lands_again, two_processes_cannot_both_commit,
};
