//! What a broker keeps of its journals.
ghost use Rattle.std.specs.Prelude.{◌≡◌, [], IfOk, OnOk, unwrap_or};
ghost use Rattle.std.specs.Option.{option_copied};
ghost use Rattle.gz_broker.specs.Brokers.{new_row, row_of, with_row};

use crate::row::Row;
use gz_label::{Name, NoMemory};
use indexmap::IndexMap;
use std::alloc::Global;
use std::marker::Model;

/// A row for each journal that the broker heard of, in the order in which it did. One is found by hash.
#[derive(Drop)]
pub struct Rows {
    rows: IndexMap<Name, Row>,
}

impl Model for Rows {
    ghost use Rattle.std.specs.Prelude.{List, ℕ};
    ghost use Rattle.gz_broker.specs.Brokers.{Row};

    ghost Value = { List (List ℕ × Row) };

    ghost view = { λ a. a.rows.entries };
}

// The row that was found, or a new one.
fn found_or_new(alloc: Global, found: Option<Row>) -> Row
    ensures { result ≡ unwrap_or found new_row }
{
    match found {
        None => Row::new(alloc),
        Some(row) => row,
    }
}

impl Rows {
    /// No journal. It takes no memory.
    pub fn new(alloc: Global) -> Rows
        ensures { result ≡ [] }
    {
        Rows {
            rows: IndexMap::new(alloc),
        }
    }

    /// The journal's row; None where the broker hasn't heard of it. It takes no memory.
    #[tactic(auto, using(crate::proofs::Found::row_found))]
    pub fn get(&self, journal: &Name) -> Option<&Row>
        ensures { row_of journal.now self.now ≡ unwrap_or (option_copied result) new_row }
    {
        self.rows.get(journal)
    }

    /// Takes the journal's row out, and leaves a new one in its place.
    #[tactic(auto, using(crate::proofs::Found::row_inserted))]
    pub fn take(&mut self, alloc: Global, journal: &Name) -> Result<Row, NoMemory>
        ensures row { IfOk result (λ row. row ≡ row_of journal.now self.old) }
        ensures rows { OnOk result (self.new ≡ with_row journal.now new_row self.old) }
    {
        let key = journal.copy()?;
        let found = self.rows.insert(key, Row::new(alloc))?;
        let row = found_or_new(alloc, found);
        Ok(row)
    }

    /// Puts the journal's row.
    #[tactic(auto, using(crate::proofs::Found::row_inserted))]
    pub fn put(&mut self, journal: &Name, row: Row) -> Result<(), NoMemory>
        ensures { OnOk result (self.new ≡ with_row journal.now row self.old) }
    {
        let key = journal.copy()?;
        let _ = self.rows.insert(key, row)?;
        Ok(())
    }
}
