//! What a cluster puts into its key space.
ghost use Rattle.std.specs.Prelude.{◌≡◌, ◌+◌, ◌≤◌, ◌++◌, [], length, map, false, true, IfOk, IsTrue};
ghost use Rattle.std.specs.Map.{values_of};
ghost use Rattle.gz_registry.specs.Keys.{member_key, journal_put, shard_put, journal_write, shard_write, member_named, put_named, in_order, writes_of, members_of};
ghost use Rattle.gz_registry.specs.Registered.{AreNew};

use gz_keyspace::Joined;
use gz_label::{Blob, KeyWrite, Name, NoMemory, Writes};
use gz_print::{print_journal, print_shard};
use gz_spec::{JournalSpec, MemberSpec, ShardSpec, Specs};
use std::alloc::{AllocError, Global};
use std::collections::BTreeMap;

// The key of this prefix and this name.
fn key_of(alloc: Global, prefix: &str, name: &Name) -> Result<Name, NoMemory>
    requires { length prefix.now + length name.now ≤ 1024 }
    ensures { IfOk result (λ key. key ≡ prefix.now ++ name.now) }
{
    let mut text = String::from_str(alloc, prefix)?;
    text.push_str(name.as_str())?;
    let key = Name::of(alloc, text.as_str())?;
    Ok(key)
}

/// The key of a member of this id.
pub fn member_key(alloc: Global, id: &Name) -> Result<Name, NoMemory>
    requires { length id.now ≤ 255 }
    ensures { IfOk result (λ key. key ≡ member_key id.now) }
{
    let key = key_of(alloc, "member/", id)?;
    Ok(key)
}

// The write of a journal.
fn journal_put(alloc: Global, journal: &JournalSpec) -> Result<KeyWrite, NoMemory>
    ensures { IfOk result (λ write. write ≡ journal_put journal.now) }
{
    let key = key_of(alloc, "journal/", &journal.name)?;
    let value = print_journal(alloc, journal)?;
    Ok(KeyWrite {
        key,
        value: Some(value),
    })
}

// The write of a shard.
fn shard_put(alloc: Global, shard: &ShardSpec) -> Result<KeyWrite, NoMemory>
    ensures { IfOk result (λ write. write ≡ shard_put shard.now) }
{
    let key = key_of(alloc, "shard/", &shard.id)?;
    let value = print_shard(alloc, shard)?;
    Ok(KeyWrite {
        key,
        value: Some(value),
    })
}

// The writes of the journals, by their names.
fn journal_table(
    alloc: Global,
    journals: &[JournalSpec],
) -> Result<BTreeMap<Name, KeyWrite>, NoMemory>
    ensures { IfOk result (λ table. table.entries ≡ put_named (map journal_write journals.now) []) }
{
    let mut table = BTreeMap::new(alloc);
    for journal in journals {
        let write = journal_put(alloc, journal)?;
        table.insert(journal.name.copy()?, write)?;
    }
    Ok(table)
}

// The writes of the shards, by their ids.
fn shard_table(alloc: Global, shards: &[ShardSpec]) -> Result<BTreeMap<Name, KeyWrite>, NoMemory>
    ensures { IfOk result (λ table. table.entries ≡ put_named (map shard_write shards.now) []) }
{
    let mut table = BTreeMap::new(alloc);
    for shard in shards {
        let write = shard_put(alloc, shard)?;
        table.insert(shard.id.copy()?, write)?;
    }
    Ok(table)
}

// The members, by their ids.
fn member_table(
    alloc: Global,
    consumer: bool,
    members: &[MemberSpec],
) -> Result<BTreeMap<Name, Joined>, NoMemory>
    ensures { IfOk result
        (λ table. table.entries ≡ put_named (map (member_named consumer) members.now) []) }
{
    let mut table = BTreeMap::new(alloc);
    for member in members {
        let spec = member.copy()?;
        table.insert(member.id.copy()?, Joined { consumer, spec })?;
    }
    Ok(table)
}

// The writes of the table, in its order.
fn writes_in(alloc: Global, table: BTreeMap<Name, KeyWrite>) -> Result<Vec<KeyWrite>, AllocError>
    ensures { IfOk result (λ writes. writes.items ≡ values_of table.entries) }
{
    table.into_values().collect(alloc)
}

// The members of the table, in its order.
fn members_in(alloc: Global, table: BTreeMap<Name, Joined>) -> Result<Vec<Joined>, AllocError>
    ensures { IfOk result (λ members. members.items ≡ values_of table.entries) }
{
    table.into_values().collect(alloc)
}

/// The writes of all journals in the order of their names, and then those of all shards in the order of their ids:
/// at most 1,280.
#[tactic(auto, using(crate::proofs::Begun::few_writes))]
pub fn writes_of(alloc: Global, specs: &Specs) -> Result<Writes, NoMemory>
    ensures value { IfOk result (λ writes. writes ≡ writes_of specs.now) }
    ensures few { length (writes_of specs.now) ≤ 1280 }
{
    let journals = journal_table(alloc, specs.journals.as_slice())?;
    let shards = shard_table(alloc, specs.shards.as_slice())?;
    let mut writes = writes_in(alloc, journals)?;
    let mut more = writes_in(alloc, shards)?;
    writes.append(&mut more)?;
    Ok(Writes::from_vec(writes))
}

/// All brokers in the order of their ids, and then all consumers in theirs: at most 64, no two of one id.
#[tactic(auto, using(crate::proofs::Begun::few_members, crate::proofs::Begun::new_members))]
pub fn members_of(alloc: Global, specs: &Specs) -> Result<Vec<Joined>, NoMemory>
    ensures value { IfOk result (λ members. members.items ≡ members_of specs.now) }
    ensures few { length (members_of specs.now) ≤ 64 }
    ensures new { AreNew (members_of specs.now) [] }
{
    let brokers = member_table(alloc, false, specs.brokers.as_slice())?;
    let consumers = member_table(alloc, true, specs.consumers.as_slice())?;
    let mut members = members_in(alloc, brokers)?;
    let mut more = members_in(alloc, consumers)?;
    members.append(&mut more)?;
    Ok(members)
}
