//! A broker and its step.
ghost use Rattle.std.specs.Prelude.{◌≡◌, ◌+◌, IfOk, unwrap_or};
ghost use Rattle.std.specs.Option.{option_copied};
ghost use Rattle.gz_broker.specs.Brokers.{new_row, row_of};
ghost use Rattle.gz_brokering.specs.Rules.{new_broker};

mod closing;

use crate::reading::Fetch;
use crate::row::Row;
use crate::rows::Rows;
use gz_keyspace::Mirror;
use gz_label::{Name, NoMemory};
use std::alloc::Global;
use std::marker::Model;

/// A broker: its name, its mirror of the keys, what it keeps of each journal, the reads whose bytes the store was asked
/// for, and how many requests it has numbered. After NoMemory it isn't used again.
#[derive(Drop)]
pub struct Broker {
    alloc: Global,
    name: Name,
    mirror: Mirror,
    rows: Rows,
    fetches: Vec<Fetch>,
    requests: u64,
}

impl Model for Broker {
    ghost use Rattle.gz_broker.specs.Brokers.{Broker};

    ghost Value = { Broker };

    ghost view = { λ a. record {
      name = a.name;
      mirror = a.mirror;
      rows = a.rows;
      fetches = a.fetches.items;
      requests = a.requests;
    } };
}

impl Broker {
    /// A broker of this name that knows of no key. It takes no memory.
    pub fn new(alloc: Global, name: Name) -> Broker
        ensures { result ≡ new_broker name }
    {
        Broker {
            alloc,
            name,
            mirror: Mirror::new(alloc),
            rows: Rows::new(alloc),
            fetches: Vec::new(alloc),
            requests: 0,
        }
    }

    /// What it keeps of a journal; None where it hasn't heard of it. It takes no memory.
    pub fn row(&self, journal: &Name) -> Option<&Row>
        ensures { row_of journal.now self.now.rows ≡ unwrap_or (option_copied result) new_row }
    {
        self.rows.get(journal)
    }
}

/// The number behind. That of 2^64 - 1 counts as out of memory.
fn next(number: u64) -> Result<u64, NoMemory>
    ensures { IfOk result (λ after. after ≡ number + 1) }
{
    if number == u64::MAX {
        return Err(NoMemory);
    }
    Ok(number + 1)
}
