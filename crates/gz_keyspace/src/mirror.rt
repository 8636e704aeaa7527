//! Mirrors of a space of keys.
ghost use Rattle.std.specs.Prelude.{◌≡◌, [], OnOk, OnErr, IfOk, option_map, slice_get};
ghost use Rattle.gz_keyspace.specs.Keys.{held_at, keys_after};
ghost use Rattle.gz_keyspace.specs.Space.{revision_of};
ghost use Rattle.gz_keyspace.specs.Mirrors.{Mirrored, IsAscending, apply_answer, applied};
ghost use Rattle.gz_keyspace.specs.Outcomes.{Gives};

use crate::rows::{find, put_rows};
use crate::table::{Held, prepare};
use crate::{KeyError, KeySpace};
use gz_label::{Blob, Change, Name, NoMemory};
use std::alloc::Global;
use std::marker::Model;

/// A copy of the keys of a key space at one of its revisions, which takes changes. A contract sees its revision
/// and what keys have there.
#[derive(Drop)]
pub struct Mirror {
    revision: u64,
    rows: Vec<(Name, Held)>,
}

impl Model for Mirror {
    ghost use Rattle.gz_keyspace.specs.Mirrors.{Mirrored, IsAscending};

    ghost Value = { Mirrored };

    ghost view = { λ a. record { revision = a.revision; keys = a.rows.items } };

    ghost invariant = { λ a. IsAscending a.rows.items };
}

impl Mirror {
    /// No keys, at revision 0. It takes no memory.
    pub fn new(alloc: Global) -> Mirror
        ensures { result ≡ record { revision = 0; keys = [] } }
    {
        Mirror {
            revision: 0,
            rows: Vec::new(alloc),
        }
    }

    /// A copy of the key space's keys, at its revision.
    pub fn of(keys: &KeySpace) -> Result<Mirror, NoMemory>
        ensures { IfOk result
            (λ mirror. mirror
            ≡ record {
              revision = revision_of keys.now.changes;
              keys = keys_after keys.now.changes;
            }) }
    {
        Ok(Mirror {
            revision: keys.revision(),
            rows: keys.rows()?,
        })
    }

    /// The revision. It takes no memory.
    pub fn revision(&self) -> u64
        ensures { result ≡ self.now.revision }
    {
        self.revision
    }

    /// The key's value and the revision of the change that put it; none exactly where the key is absent. It
    /// takes no memory.
    pub fn get(&self, key: &Name) -> Option<(&Blob, u64)>
        ensures { option_map
            (λ found. record { value = found.0.now; mod_revision = found.1 }) result
            ≡ held_at key.now self.now.keys }
    {
        match find(self.rows.as_slice(), key) {
            None => None,
            Some(held) => Some((&held.value, held.mod_revision)),
        }
    }

    /// The key at this place, from 0, in the order of the keys, with its value and the revision of the change that
    /// put it; none exactly past their end. It takes no memory.
    pub fn nth(&self, place: usize) -> Option<(&Name, &Blob, u64)>
        ensures value { option_map
            (λ found. (found.0.now, record { value = found.1.now; mod_revision = found.2 })) result
            ≡ slice_get self.now.keys place }
        ensures order { IsAscending self.now.keys }
    {
        match self.rows.get(place) {
            None => None,
            Some((key, held)) => Some((key, &held.value, held.mod_revision)),
        }
    }

    /// Takes a change: true where it was the next one, false where its revision isn't above the mirror's, and
    /// then nothing changes. Skipped where it is above the next one. After a refusal nothing has changed.
    pub fn apply(&mut self, change: &Change) -> Result<bool, KeyError>
        ensures answer { Gives result (apply_answer change.now self.old) }
        ensures ok { OnOk result (self.new ≡ applied change.now self.old) }
        ensures err { OnErr result (self.new ≡ self.old) }
    {
        if change.revision <= self.revision {
            return Ok(false);
        }
        if change.revision - self.revision > 1 {
            return Err(KeyError::Skipped {
                have: self.revision,
                got: change.revision,
            });
        }
        let alloc = *self.rows.allocator();
        let prepared = prepare(alloc, change.revision, change.writes.as_slice())?;
        self.rows.reserve(prepared.len())?;
        put_rows(&mut self.rows, prepared);
        self.revision = change.revision;
        Ok(true)
    }
}
