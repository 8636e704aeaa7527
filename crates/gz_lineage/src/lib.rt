//! Why an acknowledged byte stays: a journal that several brokers keep, reduced to what that question needs.
//!
//! The model is in `specs/`: brokers, a key space and a store that send one another messages, of which each may be
//! lost, late, in another order or there more than once; brokers that stop at any step; a primary that leads on while
//! another one does. `Rules` says what a broker does with a message, `World` what may happen, `Handover` the one
//! premise. A list of marks stands for a journal: entries of requests that were judged, and resets.
//!
//! What is proved of every list of events are the contracts of the functions in `laws.rt`, which have no parameters
//! and empty bodies: a caller gets the theorem by the call.
//!
//! ```text
//! journals_only_grow();    // from here on: what any broker serves is a prefix of the journal
//! ```
#![tactic(auto)]

mod laws;

pub use laws::{
    acknowledged_entries_stay, acknowledged_only_when_held_by_all, an_attempt_lands_at_most_once,
    entries_stand_where_they_land, handover_ends_only_at_a_crash_or_a_converge, journals_only_grow,
    resets_only_after_a_whole_route_stopped, the_newest_image_is_chosen,
};
