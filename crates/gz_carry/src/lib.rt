//! A broker's part in one journal is seen in the reduced journal of `gz_lineage`.
//!
//! The journal theorem is proved of a reduced journal: it counts marks from the first one on, has no bytes and no trims,
//! and a letter that was said may come at any time. A member of `gz_replica` holds the end of a journal, from some offset
//! on, and says offsets in bytes. Here stands what joins the two: the relation of one member and one node, and of one
//! message and the letters that were said (`specs/Seen`); and that each rule of a member keeps it (`specs/Carried`). So
//! what the theorem says of nodes it says of members, as far as the relation shows them.
//!
//! There is no code. The contracts of the functions in `laws.rt`, which have no parameters and empty bodies, say what is
//! proved.
//!
//! ```text
//! members_are_carried();    // from here on: a member that is seen in a node is so after each rule
//! ```
#![tactic(auto)]

mod laws;

pub use laws::{
    letters_come_again, members_are_carried, members_are_told_apart, messages_are_carried,
    messages_stay_seen, names_have_numbers, openings_are_carried, primaries_are_carried,
    resending_is_carried, runs_have_histories,
};
