//! What a broker does as primary of a journal.
ghost use Rattle.std.specs.Prelude.{◌≡◌, ◌<◌, ◌≤◌, Option, MatchOption};
ghost use Rattle.gz_journal.specs.JournalList.{max_end};
ghost use Rattle.gz_replica.specs.Member.{open_epoch_of};

use crate::{HeldEnds, Reached, Reports};
use gz_wire::Names;
use std::marker::Model;

/// The greatest end of a journal, 2^62.
const MAX_END: u64 = 1 << 62;

/// What a primary opens: its epoch, the other members in route order, and the epoch that the sync key had
/// when the route was taken, 0 where it had none.
#[derive(Debug, Drop)]
pub struct Route {
    pub epoch: u64,
    pub others: Names,
    pub opened: u64,
}

/// The end up to which the store has a journal, at most 2^62.
#[derive(Debug, Drop)]
pub struct StoreEnd {
    end: u64,
}

impl Model for StoreEnd {
    ghost use Rattle.std.specs.Prelude.{ℕ, ◌≤◌, ◌^◌};

    ghost Value = { ℕ };

    ghost view = { λ a. a.end };

    ghost invariant = { λ a. a.end ≤ 2 ^ 62 };
}

impl StoreEnd {
    /// The end of a store, or None exactly where it is above 2^62. It takes no memory.
    pub fn new(end: u64) -> Option<StoreEnd>
        ensures { MatchOption result (max_end < end) (λ stored. (stored ≡ end) × (end ≤ max_end)) }
    {
        if end > MAX_END {
            return None;
        }
        Some(StoreEnd { end })
    }

    /// The end as a number. It takes no memory.
    pub fn get(&self) -> u64
        ensures value { result ≡ self.now }
        ensures within { result ≤ max_end }
    {
        self.end
    }
}

/// How far a primary has come.
#[derive(Debug, Drop)]
pub enum Part {
    /// It is no primary, or one no more.
    Closed,
    /// It waits for the other members' promises, and for the store's end, which it asked for by this number.
    Opening {
        route: Route,
        req: u64,
        reports: Reports,
        stored: Option<StoreEnd>,
    },
    /// It waits until every other member has adopted its image.
    Adopting {
        route: Route,
        reached: Reached,
    },
    /// It waits for the key space's answer to the transaction of this number.
    Syncing {
        route: Route,
        req: u64,
    },
    /// It takes appends. Each other member is known to hold the journal up to an end.
    Open {
        route: Route,
        held: HeldEnds,
    },
}

impl Part {
    /// The epoch at which the part is open, or None where it isn't. It takes no memory.
    pub fn open_epoch(&self) -> Option<u64>
        ensures { result ≡ open_epoch_of self.now }
    {
        match self {
            Part::Open { route, .. } => Some(route.epoch),
            _ => None,
        }
    }
}
