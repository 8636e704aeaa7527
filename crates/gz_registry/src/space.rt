//! Calls on a key space that can be refused at its last revision alone.
ghost use Rattle.std.specs.Prelude.{◌≡◌, ◌+◌, ◌<◌, ◌≤◌, ◌++◌, [], ◌∷◌, None, Some, length, false, is_ok, IfOk, OnOk, OnErr, IsTrue};
ghost use Rattle.std.specs.List.{list_all};
ghost use Rattle.std.specs.Map.{lookup};
ghost use Rattle.indexmap.specs.IndexMap.{spare};
ghost use Rattle.gz_keyspace.specs.Keys.{same_key, held_at, keys_after};
ghost use Rattle.gz_keyspace.specs.Space.{last_revision, revision_of, next_revision, made_revision, txn_answer, after_txn, after_grant, after_expire, key_of_lease};
ghost use Rattle.gz_registry.specs.Outcomes.{Gives};
ghost use Rattle.gz_registry.specs.Registered.{seen, written_if, key_answer, ended_answer, expire_answer, after_expiry, was_member, members_in, after_join, each_written, each_joined, OnlyMembers, AreNew};

use crate::RegistryError;
use crate::writes::member_key;
use gz_keyspace::{Joined, KeyError, KeySpace, print_joined};
use gz_label::{Blob, Compare, KeyWrite, Name, NoMemory};
use indexmap::IndexMap;
use std::slice;

/// One transaction without compares.
pub fn write_all(keys: &mut KeySpace, writes: &[KeyWrite]) -> Result<u64, RegistryError>
    ensures answer { Gives result (key_answer (made_revision writes.now keys.old.changes)) }
    ensures ok { OnOk result (keys.new ≡ after_txn writes.now keys.old) }
    ensures err { OnErr result (keys.new ≡ keys.old) }
{
    match keys.txn(&[], writes) {
        Ok(revision) => Ok(revision),
        Err(KeyError::KeysEnd) => Err(RegistryError::KeysEnd),
        Err(KeyError::NoMemory) => Err(RegistryError::NoMemory),
        Err(_) => unreachable!(),
    }
}

/// A transaction of one compare and one write, where it can be made. The answer is whether it was.
pub fn try_one(keys: &mut KeySpace, compare: &Compare, write: &KeyWrite) -> Result<bool, NoMemory>
    ensures answer { IfOk result
        (λ made. made ≡ is_ok (txn_answer (compare.now ∷ []) (write.now ∷ []) keys.old)) }
    ensures ok { OnOk result
        (keys.new
        ≡ written_if (txn_answer (compare.now ∷ []) (write.now ∷ []) keys.old) write.now keys.old) }
    ensures err { OnErr result (keys.new ≡ keys.old) }
{
    match keys.txn(slice::from_ref(compare), slice::from_ref(write)) {
        Ok(_) => Ok(true),
        Err(KeyError::NoMemory) => Err(NoMemory),
        Err(_) => Ok(false),
    }
}

// A grant of a key that is absent.
fn grant(keys: &mut KeySpace, key: Name, value: Blob) -> Result<u64, RegistryError>
    requires { held_at key (keys_after keys.old.changes) ≡ None }
    ensures answer { Gives result (key_answer (next_revision keys.old.changes)) }
    ensures lease { IfOk result (λ lease. lease ≡ revision_of keys.new.changes) }
    ensures ok { OnOk result (keys.new ≡ after_grant key value keys.old) }
    ensures err { OnErr result (keys.new ≡ keys.old) }
{
    match keys.grant(key, value) {
        Ok(lease) => Ok(lease),
        Err(KeyError::KeysEnd) => Err(RegistryError::KeysEnd),
        Err(KeyError::NoMemory) => Err(RegistryError::NoMemory),
        Err(_) => unreachable!(),
    }
}

// The end of a lease.
fn end_lease(keys: &mut KeySpace, lease: u64) -> Result<u64, RegistryError>
    ensures answer { Gives result
        (ended_answer (key_of_lease lease keys.old.leases) keys.old.changes) }
    ensures ok { OnOk result (keys.new ≡ after_expire lease keys.old) }
    ensures err { OnErr result (keys.new ≡ keys.old) }
{
    match keys.expire(lease) {
        Ok(revision) => Ok(revision),
        Err(KeyError::NoLease) => Err(RegistryError::NoMember),
        Err(KeyError::KeysEnd) => Err(RegistryError::KeysEnd),
        Err(KeyError::NoMemory) => Err(RegistryError::NoMemory),
        Err(_) => unreachable!(),
    }
}

/// The end of the lease of a member of this name.
#[tactic(auto, using(crate::proofs::Members::expire_none, crate::proofs::Members::expire_some, crate::proofs::Members::expired, crate::proofs::Members::only_after_expiry))]
pub fn end_member(
    keys: &mut KeySpace,
    members: &IndexMap<Name, u64>,
    name: &Name,
) -> Result<u64, RegistryError>
    ensures answer { Gives result (expire_answer name.now (seen keys.old members.now.entries)) }
    ensures ok { OnOk result
        (seen keys.new members.now.entries
        ≡ after_expiry name.now (seen keys.old members.now.entries)) }
    ensures err { OnErr result (keys.new ≡ keys.old) }
{
    match members.get(name) {
        None => Err(RegistryError::NoMember),
        Some(lease) => {
            let revision = end_lease(keys, *lease)?;
            Ok(revision)
        }
    }
}

// Adds a member behind the others. It takes no memory.
fn add_member(members: &mut IndexMap<Name, u64>, id: Name, lease: u64)
    requires room { 1 ≤ spare members.old }
    requires new { lookup (same_key id) members.old.entries ≡ None }
    ensures { members.new.entries ≡ members.old.entries ++ (id, lease) ∷ [] }
{
    let _ = members.insert(id, lease).unwrap();
}

/// A member joins: its key is granted, and it goes behind the others.
#[tactic(auto, using(crate::proofs::Forms::short_member, crate::proofs::Members::absent, crate::proofs::Members::absent_key, crate::proofs::Members::joined_is))]
pub fn admit(
    keys: &mut KeySpace,
    members: &mut IndexMap<Name, u64>,
    joined: &Joined,
) -> Result<u64, RegistryError>
    requires new { was_member joined.now.spec.id (members_in members.old.entries) ≡ false }
    requires only { OnlyMembers (seen keys.old members.old.entries) }
    ensures answer { Gives result (key_answer (next_revision keys.old.changes)) }
    ensures ok { OnOk result
        (seen keys.new members.new.entries
        ≡ after_join joined.now (seen keys.old members.old.entries)) }
    ensures err { OnErr result
        (seen keys.new members.new.entries ≡ seen keys.old members.old.entries) }
{
    let alloc = *members.allocator();
    let key = member_key(alloc, &joined.spec.id)?;
    let value = print_joined(alloc, joined)?;
    let id = joined.spec.id.copy()?;
    members.reserve(1)?;
    let lease = grant(keys, key, value)?;
    add_member(members, id, lease);
    Ok(lease)
}

// One write in a transaction of its own, where the revision isn't at its end.
fn write_one(keys: &mut KeySpace, write: &KeyWrite) -> Result<(), NoMemory>
    requires { revision_of keys.old.changes < last_revision }
    ensures { OnOk result (keys.new ≡ after_txn (write.now ∷ []) keys.old) }
{
    match write_all(keys, slice::from_ref(write)) {
        Ok(_) => Ok(()),
        Err(RegistryError::NoMemory) => Err(NoMemory),
        Err(_) => unreachable!(),
    }
}

/// Writes, each in a transaction of its own, where the revision has room for all.
#[tactic(auto, using(crate::proofs::Spaces::longer_txn))]
pub fn write_each(keys: &mut KeySpace, writes: &[KeyWrite]) -> Result<(), NoMemory>
    requires { revision_of keys.old.changes + length writes.now ≤ last_revision }
    ensures { OnOk result (keys.new ≡ each_written writes.now keys.old) }
{
    for write in writes {
        write_one(keys, write)?;
    }
    Ok(())
}

// A member joins, where the revision isn't at its end.
fn admit_one(
    keys: &mut KeySpace,
    members: &mut IndexMap<Name, u64>,
    joined: &Joined,
) -> Result<(), NoMemory>
    requires new { was_member joined.now.spec.id (members_in members.old.entries) ≡ false }
    requires only { OnlyMembers (seen keys.old members.old.entries) }
    requires room { revision_of keys.old.changes < last_revision }
    ensures { OnOk result
        (seen keys.new members.new.entries
        ≡ after_join joined.now (seen keys.old members.old.entries)) }
{
    match admit(keys, members, joined) {
        Ok(_) => Ok(()),
        Err(RegistryError::NoMemory) => Err(NoMemory),
        Err(_) => unreachable!(),
    }
}

/// Members join one after another, where the revision has room for all.
pub fn admit_each(
    keys: &mut KeySpace,
    members: &mut IndexMap<Name, u64>,
    joined: &[Joined],
) -> Result<(), NoMemory>
    requires new { AreNew joined.now (members_in members.old.entries) }
    requires only { OnlyMembers (seen keys.old members.old.entries) }
    requires room { revision_of keys.old.changes + length joined.now ≤ last_revision }
    ensures value { OnOk result
        (seen keys.new members.new.entries
        ≡ each_joined joined.now (seen keys.old members.old.entries)) }
    ensures only { OnOk result (OnlyMembers (seen keys.new members.new.entries)) }
{
    for one in joined {
        admit_one(keys, members, one)?;
    }
    Ok(())
}
