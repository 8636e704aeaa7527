//! A cluster's key space with its members.
ghost use Rattle.std.specs.Prelude.{◌≡◌, ◌<◌, ◌^◌, [], ◌∷◌, false, is_ok, IfOk, OnOk, OnErr, IsTrue, option_map};
ghost use Rattle.gz_keyspace.specs.Keys.{held_at, keys_after};
ghost use Rattle.gz_keyspace.specs.Space.{revision_of, txn_answer};
ghost use Rattle.gz_registry.specs.Registered.{IsOfNoMember, after_try, was_member, put_answer, after_put, join_answer, after_join, expire_answer, after_expiry, registry_start};
ghost use Rattle.gz_registry.specs.Outcomes.{Gives};

use crate::RegistryError;
use crate::space::{admit, end_member, try_one, write_all};
use crate::start::{start_keys, start_members};
use crate::writes::writes_of;
use gz_keyspace::{Joined, KeySpace};
use gz_label::{Blob, Compare, KeyWrite, Name, NoMemory};
use gz_spec::{MAX_MEMBERS, Specs};
use indexmap::IndexMap;
use std::alloc::Global;
use std::marker::Model;

/// A cluster's key space, and everyone who ever joined the cluster. A contract sees the key space, and the members
/// with their leases in the order in which they joined.
#[derive(Drop)]
pub struct Registry {
    keys: KeySpace,
    members: IndexMap<Name, u64>,
}

impl Model for Registry {
    ghost use Rattle.gz_registry.specs.Registered.{Registered, OnlyMembers, members_in};

    ghost Value = { Registered };

    ghost view = { λ a. record { keys = a.keys; members = members_in a.members.entries } };

    ghost invariant = { λ a. OnlyMembers (record { keys = a.keys; members = members_in a.members.entries }) };
}

impl Registry {
    /// What a cluster of these specifications starts with: the writes of journals in the order of their names and of
    /// shards in the order of their ids, each in a transaction of its own, and then a grant for each broker and for
    /// each consumer, in the order of their ids.
    pub fn start(alloc: Global, specs: &Specs) -> Result<Registry, NoMemory>
        ensures { IfOk result (λ registry. registry ≡ registry_start specs.now) }
    {
        let mut keys = start_keys(alloc, specs)?;
        let members = start_members(alloc, &mut keys, specs)?;
        Ok(Registry { keys, members })
    }

    /// The key space. It takes no memory.
    pub fn keys(&self) -> &KeySpace
        ensures { result.now ≡ self.now.keys }
    {
        &self.keys
    }

    /// The revision of the key space, below 2^40. It takes no memory.
    pub fn revision(&self) -> u64
        ensures value { result ≡ revision_of self.now.keys.changes }
        ensures bound { result < 2 ^ 40 }
    {
        self.keys.revision()
    }

    /// The key's value and the revision of the change that put it; none exactly where the key is absent. It
    /// takes no memory.
    pub fn get(&self, key: &Name) -> Option<(&Blob, u64)>
        ensures { option_map
            (λ found. record { value = found.0.now; mod_revision = found.1 }) result
            ≡ held_at key.now (keys_after self.now.keys.changes) }
    {
        self.keys.get(key)
    }

    /// Whether a member of this name ever joined, expired or not. It takes no memory.
    pub fn was_member(&self, name: &Name) -> bool
        ensures { result ≡ was_member name.now self.now.members }
    {
        self.members.contains_key(name)
    }

    /// Puts a part of specifications in one transaction: its journals in the order of their names, and then its
    /// shards in the order of their ids. The answer is the new revision, or the old one where the part names
    /// neither. KeysEnd where it names some and the revision is 2^40 - 1. After an error nothing has changed.
    pub fn put(&mut self, part: &Specs) -> Result<u64, RegistryError>
        ensures answer { Gives result (put_answer part.now self.old) }
        ensures ok { OnOk result (self.new ≡ after_put part.now self.old) }
        ensures err { OnErr result (self.new ≡ self.old) }
    {
        let alloc = *self.members.allocator();
        let writes = writes_of(alloc, part)?;
        let revision = write_all(&mut self.keys, writes.as_slice())?;
        Ok(revision)
    }

    /// A transaction of one compare and one write, whose key is no member's. It is made where the compare's key has its
    /// revision and that of the key space isn't 2^40 - 1, and changes nothing elsewhere. The answer is whether it was
    /// made. After out of memory nothing has changed.
    #[tactic(auto, using(crate::proofs::Members::only_after_try))]
    pub fn try_write(&mut self, compare: &Compare, write: &KeyWrite) -> Result<bool, NoMemory>
        requires { IsOfNoMember write.now }
        ensures answer { IfOk result
            (λ made. made ≡ is_ok (txn_answer (compare.now ∷ []) (write.now ∷ []) self.old.keys)) }
        ensures ok { OnOk result (self.new ≡ after_try compare.now write.now self.old) }
        ensures err { OnErr result (self.new ≡ self.old) }
    {
        let made = try_one(&mut self.keys, compare, write)?;
        Ok(made)
    }

    /// A member joins, whose name no member had: its key is put, and kept by a lease, which is the answer.
    /// MembersFull where 64 have joined; else KeysEnd where the revision is 2^40 - 1. After an error nothing has
    /// changed.
    pub fn join(&mut self, joined: &Joined) -> Result<u64, RegistryError>
        requires new { was_member joined.now.spec.id self.old.members ≡ false }
        ensures answer { Gives result (join_answer self.old) }
        ensures ok { OnOk result (self.new ≡ after_join joined.now self.old) }
        ensures err { OnErr result (self.new ≡ self.old) }
    {
        if self.members.len() >= MAX_MEMBERS {
            return Err(RegistryError::MembersFull);
        }
        let lease = admit(&mut self.keys, &mut self.members, joined)?;
        Ok(lease)
    }

    /// Ends the lease of the member of this name, and deletes its key. The answer is the new revision. NoMember where
    /// no member of the name ever joined, or its lease isn't live; else KeysEnd where the revision is 2^40 - 1. After
    /// an error nothing has changed.
    pub fn expire(&mut self, name: &Name) -> Result<u64, RegistryError>
        ensures answer { Gives result (expire_answer name.now self.old) }
        ensures ok { OnOk result (self.new ≡ after_expiry name.now self.old) }
        ensures err { OnErr result (self.new ≡ self.old) }
    {
        let revision = end_member(&mut self.keys, &self.members, name)?;
        Ok(revision)
    }
}
