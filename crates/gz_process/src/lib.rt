//! Processes of shards, and the consumers that run them.
//!
//! `specs/` says what a process is (`specs/Processes.antt`), what a poll, an answer and a give-up
//! make of it (`specs/Rules.antt`), and what a step makes of a consumer (`specs/Step.antt`): one
//! total function of state and item. This crate has definitions and laws; the types come with
//! their code.
#![tactic(auto)]

mod laws;

pub use laws::{
    a_landed_commit_is_acknowledged, a_process_appends_as_its_author, a_process_follows_its_phases,
    a_process_that_waits_sends_nothing, a_stopped_process_sends_nothing,
    a_transaction_commits_what_it_consumed, an_answer_that_isnt_taken_leaves_the_process,
    only_lines_stand_before_their_commit, what_isnt_taken_does_nothing,
};
