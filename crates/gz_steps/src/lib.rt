//! What a broker's step comes to in the reduced journal of `gz_lineage`.
//!
//! `gz_carry` carries each rule of one member. A broker has many journals, takes messages late and twice, judges appends
//! and keeps answers in a queue. Here its whole step is carried, for one journal: after some events of the reduced world,
//! of which none ends handover, the broker is seen there again, and so is what it sent (`specs/Steps`). And the
//! acknowledged list of the cluster follows the reduced journal (`specs/Followed`).
//!
//! There is no code. The contracts of the functions in `laws.rt`, which have no parameters and empty bodies, say what is
//! proved.
//!
//! ```text
//! messages_are_carried();    // from here on: a broker that is seen is seen behind each message of a member
//! ```
#![tactic(auto)]

mod laws;

pub use laws::{
    answers_are_carried, appends_are_carried, messages_are_carried, sending_is_carried,
};
