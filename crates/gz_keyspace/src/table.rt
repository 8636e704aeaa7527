//! What keys have, in a table, and how writes change it.
ghost use Rattle.std.specs.Prelude.{◌≡◌, ◌≤◌, List, ℕ, IfOk};
ghost use Rattle.std.specs.VecDeque.{deque_len};
ghost use Rattle.indexmap.specs.IndexMap.{get as got, spare};
ghost use Rattle.gz_keyspace.specs.Keys.{same_key};
ghost use Rattle.gz_keyspace.specs.Table.{puts, releases, prepared_of, prepared_value};

use gz_label::{Blob, KeyWrite, Name, NoMemory};
use indexmap::IndexMap;
use std::alloc::Global;
use std::collections::VecDeque;

/// What a key has: its value, and the revision of the change that put it.
#[derive(Debug, Drop)]
pub struct Held {
    pub value: Blob,
    pub mod_revision: u64,
}

impl Held {
    /// An equal value.
    pub fn copy(&self) -> Result<Held, NoMemory>
        ensures { IfOk result (λ held. held ≡ self.now) }
    {
        Ok(Held {
            value: self.value.copy()?,
            mod_revision: self.mod_revision,
        })
    }
}

/// A write with what its key is to have, copied.
#[derive(Debug, Drop)]
pub struct Prepared {
    pub key: Name,
    pub held: Option<Held>,
}

// What a write of this value gives its key.
fn prepare_value(revision: u64, value: &Option<Blob>) -> Result<Option<Held>, NoMemory>
    ensures { IfOk result (λ held. held ≡ prepared_value revision value.now) }
{
    match value {
        None => Ok(None),
        Some(value) => Ok(Some(Held {
            value: value.copy()?,
            mod_revision: revision,
        })),
    }
}

/// What the writes of a change give their keys, in their order.
pub fn prepare(
    alloc: Global,
    revision: u64,
    writes: &[KeyWrite],
) -> Result<VecDeque<Prepared>, NoMemory>
    ensures { IfOk result (λ prepared. prepared.items ≡ prepared_of revision writes.now) }
{
    let mut prepared = VecDeque::new(alloc);
    for write in writes {
        let key = write.key.copy()?;
        let held = prepare_value(revision, &write.value)?;
        prepared.push_back(Prepared { key, held })?;
    }
    Ok(prepared)
}

/// Gives the keys what was prepared for them, and ends their leases. It takes no memory.
pub fn put_all(
    table: &mut IndexMap<Name, Held>,
    leases: &mut IndexMap<Name, u64>,
    mut prepared: VecDeque<Prepared>,
)
    requires { deque_len prepared ≤ spare table.old }
    ensures value { (key : List ℕ) →
        got same_key table.new key ≡ puts key prepared.items (got same_key table.old key) }
    ensures leases { leases.new.entries ≡ releases prepared.items leases.old.entries }
    ensures room { spare leases.old ≤ spare leases.new }
{
    while let Some(Prepared { key, held }) = prepared.pop_front() {
        let _ = leases.shift_remove(&key);
        match held {
            Some(held) => {
                let _ = table.insert(key, held).unwrap();
            }
            None => {
                let _ = table.swap_remove(&key);
            }
        }
    }
}
