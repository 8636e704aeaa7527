//! A space of keys.
ghost use Rattle.std.specs.Prelude.{◌≡◌, ◌≤◌, ◌<◌, ◌^◌, [], ◌∷◌, List, ℕ, IfOk, OnOk, OnErr, option_map, filter, nat_lt, drop, ◌++◌, None};
ghost use Rattle.std.specs.Map.{lookup};
ghost use Rattle.indexmap.specs.IndexMap.{get as got, spare, IsUnchanged};
ghost use Rattle.gz_keyspace.specs.Keys.{same_key, keys_after, held_at, mod_revision_of, IsNumbered};
ghost use Rattle.gz_keyspace.specs.Table.{prepared_of, puts};
ghost use Rattle.gz_keyspace.specs.Space.{Space, revision_of, next_revision, with_change, without_written, compared, key_of_lease, txn_answer, after_txn, grant_answer, after_grant, expire_answer, after_expire};
ghost use Rattle.gz_keyspace.specs.Outcomes.{Gives};

use crate::KeyError;
use crate::rows::{copy_rows, sort_rows};
use crate::table::{Held, prepare, put_all};
use gz_label::{Blob, Change, Changes, Compare, KeyWrite, Name, NoMemory, Writes};
use indexmap::IndexMap;
use std::alloc::Global;
use std::marker::Model;

/// The last revision, 2^40 - 1.
const LAST_REVISION: u64 = 1_099_511_627_775;

// The changes so far, what they left to each key, and the live lease of each key that has one.
#[derive(Drop)]
struct Tables {
    changes: Vec<Change>,
    keys: IndexMap<Name, Held>,
    leases: IndexMap<Name, u64>,
}

impl Tables {
    // The next revision.
    fn next_revision(&self) -> Result<u64, KeyError>
        ensures { Gives result (next_revision self.now.changes.items) }
    {
        let revision = self.changes.len() as u64;
        if revision == LAST_REVISION {
            return Err(KeyError::KeysEnd);
        }
        Ok(revision + 1)
    }

    // Makes the writes. After a refusal nothing has changed.
    fn commit(&mut self, writes: Writes) -> Result<u64, KeyError>
        ensures answer { Gives result (next_revision self.old.changes.items) }
        ensures revision { IfOk result (λ revision. revision ≡ revision_of self.new.changes.items) }
        ensures changes { OnOk result
            (self.new.changes.items ≡ with_change writes self.old.changes.items) }
        ensures keys { OnOk result
            ((key : List ℕ) →
            got same_key self.new.keys key
            ≡ puts key (prepared_of (revision_of self.new.changes.items) writes)
            (got same_key self.old.keys key)) }
        ensures leases { OnOk result
            (self.new.leases.entries ≡ without_written writes self.old.leases.entries) }
        ensures room { spare self.old.leases ≤ spare self.new.leases }
        ensures same_changes { OnErr result (self.new.changes.items ≡ self.old.changes.items) }
        ensures same_keys { OnErr result (IsUnchanged self.old.keys self.new.keys) }
        ensures same_leases { OnErr result (IsUnchanged self.old.leases self.new.leases) }
    {
        let revision = self.next_revision()?;
        let alloc = *self.changes.allocator();
        let prepared = prepare(alloc, revision, writes.as_slice())?;
        self.keys.reserve(prepared.len())?;
        self.changes.push(Change { revision, writes })?;
        put_all(&mut self.keys, &mut self.leases, prepared);
        Ok(revision)
    }
}

/// Keys with values, changed by transactions. A contract sees its changes, and its live leases in the order of
/// their grants, each with its key. The change at place i, counted from 0, has the revision i + 1.
#[derive(Drop)]
pub struct KeySpace {
    tables: Tables,
}

impl Model for KeySpace {
    ghost use Rattle.std.specs.Prelude.{List, ℕ, ◌≡◌, ◌≤◌, length};
    ghost use Rattle.indexmap.specs.IndexMap.{get as got};
    ghost use Rattle.gz_keyspace.specs.Keys.{same_key, keys_after, held_at, IsNumbered};
    ghost use Rattle.gz_keyspace.specs.Space.{Space, last_revision};

    ghost Value = { Space };

    ghost view = { λ a. record { changes = a.tables.changes.items; leases = a.tables.leases.entries } };

    ghost invariant = { λ a. ((key : List ℕ) → got same_key a.tables.keys key ≡ held_at key (keys_after a.tables.changes.items)) × IsNumbered a.tables.changes.items × (length a.tables.changes.items ≤ last_revision) };
}

impl KeySpace {
    /// No keys, at revision 0. It takes no memory.
    pub fn new(alloc: Global) -> KeySpace
        ensures { result ≡ record { changes = []; leases = [] } }
    {
        KeySpace {
            tables: Tables {
                changes: Vec::new(alloc),
                keys: IndexMap::new(alloc),
                leases: IndexMap::new(alloc),
            },
        }
    }

    /// The revision of the last change, 0 before the first. It is below 2^40. It takes no memory.
    pub fn revision(&self) -> u64
        ensures value { result ≡ revision_of self.now.changes }
        ensures bound { result < 2 ^ 40 }
    {
        self.tables.changes.len() as u64
    }

    /// The key's value and the revision of the change that put it; none exactly where the key is absent. It
    /// takes no memory.
    pub fn get(&self, key: &Name) -> Option<(&Blob, u64)>
        ensures { option_map
            (λ found. record { value = found.0.now; mod_revision = found.1 }) result
            ≡ held_at key.now (keys_after self.now.changes) }
    {
        match self.tables.keys.get(key) {
            None => None,
            Some(held) => Some((&held.value, held.mod_revision)),
        }
    }

    /// The keys with what each has, copied, in the order of the keys.
    pub(crate) fn rows(&self) -> Result<Vec<(Name, Held)>, NoMemory>
        ensures { IfOk result (λ rows. rows.items ≡ keys_after self.now.changes) }
    {
        let mut rows = copy_rows(*self.tables.changes.allocator(), &self.tables.keys)?;
        sort_rows(&mut rows);
        Ok(rows)
    }

    // The revision of the change that put the key, 0 where the key is absent.
    fn mod_revision(&self, key: &Name) -> u64
        ensures { result ≡ mod_revision_of key.now (keys_after self.now.changes) }
    {
        match self.get(key) {
            None => 0,
            Some((_, mod_revision)) => mod_revision,
        }
    }

    // CompareFailed with the first compare that differs.
    fn compare(&self, compares: &[Compare]) -> Result<(), KeyError>
        ensures { Gives result (compared (keys_after self.now.changes) compares.now) }
    {
        for compare in compares {
            let mod_revision = self.mod_revision(&compare.key);
            if mod_revision != compare.mod_revision {
                return Err(KeyError::CompareFailed {
                    key: compare.key.copy()?,
                    mod_revision,
                });
            }
        }
        Ok(())
    }

    /// A transaction: makes the writes in their order, where each compare's key has its revision. The answer is
    /// the new revision, or the old one where there are no writes. CompareFailed with the first compare's key
    /// that has another revision, and with the one that it has; KeysEnd where there are writes and the revision
    /// is 2^40 - 1. After a refusal nothing has changed.
    pub fn txn(&mut self, compares: &[Compare], writes: &[KeyWrite]) -> Result<u64, KeyError>
        ensures answer { Gives result (txn_answer compares.now writes.now self.old) }
        ensures ok { OnOk result (self.new ≡ after_txn writes.now self.old) }
        ensures err { OnErr result (self.new ≡ self.old) }
    {
        self.compare(compares)?;
        if writes.is_empty() {
            return Ok(self.revision());
        }
        let writes = Writes::of(*self.tables.changes.allocator(), writes)?;
        let revision = self.tables.commit(writes)?;
        Ok(revision)
    }

    /// Puts a key that is absent, and keeps it by a lease. The answer is the lease, which is the new revision. It
    /// is live until it expires or a transaction writes its key. CompareFailed with the key and its revision
    /// where it is there; else KeysEnd where the revision is 2^40 - 1. After a refusal nothing has changed.
    pub fn grant(&mut self, key: Name, value: Blob) -> Result<u64, KeyError>
        ensures answer { Gives result (grant_answer key self.old) }
        ensures ok { OnOk result (self.new ≡ after_grant key value self.old) }
        ensures err { OnErr result (self.new ≡ self.old) }
    {
        if let Some((_, mod_revision)) = self.get(&key) {
            return Err(KeyError::CompareFailed { key, mod_revision });
        }
        // Called for its clause: no key has two leases.
        let _count = self.tables.leases.len();
        let kept = key.copy()?;
        self.tables.leases.reserve(1)?;
        let writes = one_write(*self.tables.changes.allocator(), key, Some(value))?;
        let lease = self.tables.commit(writes)?;
        add_lease(&mut self.tables.leases, kept, lease);
        Ok(lease)
    }

    /// Ends a lease and deletes its key. The answer is the new revision. NoLease where no such lease is live; else
    /// KeysEnd where the revision is 2^40 - 1. After a refusal nothing has changed.
    pub fn expire(&mut self, lease: u64) -> Result<u64, KeyError>
        ensures answer { Gives result (expire_answer lease self.old) }
        ensures ok { OnOk result (self.new ≡ after_expire lease self.old) }
        ensures err { OnErr result (self.new ≡ self.old) }
    {
        let key = match leased_key(&self.tables.leases, lease) {
            None => return Err(KeyError::NoLease),
            Some(key) => key.copy()?,
        };
        let writes = one_write(*self.tables.changes.allocator(), key, None)?;
        let revision = self.tables.commit(writes)?;
        Ok(revision)
    }

    /// The changes of the revisions above this one, in order. It costs no more than those.
    pub fn since(&self, after: u64) -> Result<Changes, NoMemory>
        ensures value { IfOk result
            (λ changes. changes ≡ filter
            (λ change. nat_lt after change.revision) self.now.changes) }
        ensures numbered { IsNumbered self.now.changes }
    {
        let later = behind(self.tables.changes.as_slice(), after);
        let changes = Changes::of(*self.tables.changes.allocator(), later)?;
        Ok(changes)
    }
}

// The changes behind so many.
#[tactic(auto, using(std::proofs::lemmas::List::drop_min))]
fn behind(changes: &[Change], count: u64) -> &[Change]
    ensures { result.now ≡ drop count changes.now }
{
    let start = count.min(changes.len() as u64) as usize;
    &changes[start..]
}

// One write.
fn one_write(alloc: Global, key: Name, value: Option<Blob>) -> Result<Writes, NoMemory>
    ensures { IfOk result (λ writes. writes ≡ record { key = key; value = value } ∷ []) }
{
    let mut writes = Vec::new(alloc);
    writes.push(KeyWrite { key, value })?;
    Ok(Writes::from_vec(writes))
}

// Adds a lease behind the others. It takes no memory.
fn add_lease(leases: &mut IndexMap<Name, u64>, key: Name, lease: u64)
    requires room { 1 ≤ spare leases.old }
    requires absent { lookup (same_key key) leases.old.entries ≡ None }
    ensures { leases.new.entries ≡ leases.old.entries ++ (key, lease) ∷ [] }
{
    let _ = leases.insert(key, lease).unwrap();
}

// The key that a live lease keeps.
fn leased_key(leases: &IndexMap<Name, u64>, lease: u64) -> Option<&Name>
    ensures { option_map (λ key. key.now) result ≡ key_of_lease lease leases.now.entries }
{
    for place in 0..leases.len() {
        let (key, at) = leases.get_index(place).unwrap();
        if *at == lease {
            return Some(key);
        }
    }
    None
}
