//! What an event of a cluster comes to in the reduced journal of `gz_lineage`.
//!
//! `gz_steps` carries each step of one broker. A cluster has many brokers, a key space whose changes they see late, and
//! events at which handover may end. Here a whole cluster is carried by one world of the reduced journal, for one journal
//! (`specs/Carried`): each member in its node, each message in the letters, the keys by revision (`specs/Keys`). And each
//! event leads to a later world that carries the cluster behind it (`specs/Events`). At a crash and at a converge the
//! cluster's own handover gives the reduced one; each other event keeps it by itself.
//!
//! There is no code. The contracts of the functions in `laws.rt`, which have no parameters and empty bodies, say what is
//! proved.
//!
//! ```text
//! losses_are_carried();    // from here on: a cluster that is carried is carried behind a crash and a converge
//! ```
#![tactic(auto)]

mod laws;

pub use laws::{
    changes_are_carried, key_space_is_carried, letters_are_carried, losses_are_carried,
};
