//! Journals and shards, found by their names.
ghost use Rattle.std.specs.Prelude.{◌≡◌, [], IfOk, IsTrue, map, option_map};
ghost use Rattle.gz_links.specs.Links.{framing_at};
ghost use Rattle.gz_spec.specs.Specs.{name_of_journal, id_of_shard};
ghost use Rattle.gz_links.specs.Joins.{named_in};
ghost use Rattle.gz_spec.specs.Valid.{are_fresh};

use gz_label::{Name, NoMemory};
use gz_spec::{Framing, JournalSpec, ShardSpec};
use indexmap::IndexSet;
use std::alloc::Global;
use std::marker::Model;

/// The names of the journals, in their order.
fn names_of(alloc: Global, journals: &[JournalSpec]) -> Result<IndexSet<Name>, NoMemory>
    requires { IsTrue (are_fresh name_of_journal [] journals.now) }
    ensures { IfOk result (λ names. names.keys ≡ map name_of_journal journals.now) }
{
    let mut names = IndexSet::new(alloc);
    for journal in journals {
        let name = journal.name.copy()?;
        names.insert(name)?;
    }
    Ok(names)
}

/// The ids of the shards, in their order.
fn ids_of(alloc: Global, shards: &[ShardSpec]) -> Result<IndexSet<Name>, NoMemory>
    requires { IsTrue (are_fresh id_of_shard [] shards.now) }
    ensures { IfOk result (λ ids. ids.keys ≡ map id_of_shard shards.now) }
{
    let mut ids = IndexSet::new(alloc);
    for shard in shards {
        let id = shard.id.copy()?;
        ids.insert(id)?;
    }
    Ok(ids)
}

/// Journals, no two of one name, and their names in a table. Contracts see the journals.
#[derive(Drop)]
pub struct JournalsByName<'a> {
    journals: &'a [JournalSpec],
    names: IndexSet<Name>,
}

impl<'a> Model for JournalsByName<'a> {
    ghost use Rattle.std.specs.Prelude.{◌≡◌, List, map};
    ghost use Rattle.gz_spec.specs.Records.{JournalSpec};
    ghost use Rattle.gz_spec.specs.Specs.{name_of_journal};

    ghost Value = { List JournalSpec };

    ghost view = { λ a. a.journals.now };

    ghost invariant = { λ a. a.names.keys ≡ map name_of_journal a.journals.now };
}

impl<'a> JournalsByName<'a> {
    pub fn of(alloc: Global, journals: &'a [JournalSpec]) -> Result<JournalsByName<'a>, NoMemory>
        requires { IsTrue (are_fresh name_of_journal [] journals.now) }
        ensures { IfOk result (λ table. table ≡ journals.now) }
    {
        let names = names_of(alloc, journals)?;
        Ok(JournalsByName { journals, names })
    }

    /// The journals. It takes no memory.
    pub fn as_slice(&self) -> &'a [JournalSpec]
        ensures { result.now ≡ self.now }
    {
        self.journals
    }

    /// The journal of this name, if there is one. It takes no memory.
    pub fn named(&self, name: &Name) -> Option<&'a JournalSpec>
        ensures { option_map (λ j. j.now) result ≡ named_in name_of_journal name.now self.now }
    {
        match self.names.get_index_of(name) {
            None => None,
            Some(place) => self.journals.get(place),
        }
    }

    /// What the journal of this name holds, if there is one. It takes no memory.
    pub fn framing_at(&self, name: &Name) -> Option<Framing>
        ensures { result ≡ framing_at self.now name.now }
    {
        match self.named(name) {
            None => None,
            Some(journal) => Some(journal.framing()),
        }
    }
}

/// Shards, no two of one id, and their ids in a table. Contracts see the shards.
#[derive(Drop)]
pub struct ShardsById<'a> {
    shards: &'a [ShardSpec],
    ids: IndexSet<Name>,
}

impl<'a> Model for ShardsById<'a> {
    ghost use Rattle.std.specs.Prelude.{◌≡◌, List, map};
    ghost use Rattle.gz_spec.specs.Records.{ShardSpec};
    ghost use Rattle.gz_spec.specs.Specs.{id_of_shard};

    ghost Value = { List ShardSpec };

    ghost view = { λ a. a.shards.now };

    ghost invariant = { λ a. a.ids.keys ≡ map id_of_shard a.shards.now };
}

impl<'a> ShardsById<'a> {
    pub fn of(alloc: Global, shards: &'a [ShardSpec]) -> Result<ShardsById<'a>, NoMemory>
        requires { IsTrue (are_fresh id_of_shard [] shards.now) }
        ensures { IfOk result (λ table. table ≡ shards.now) }
    {
        let ids = ids_of(alloc, shards)?;
        Ok(ShardsById { shards, ids })
    }

    /// The shards. It takes no memory.
    pub fn as_slice(&self) -> &'a [ShardSpec]
        ensures { result.now ≡ self.now }
    {
        self.shards
    }

    /// The shard of this id, if there is one. It takes no memory.
    pub fn named(&self, id: &Name) -> Option<&'a ShardSpec>
        ensures { option_map (λ s. s.now) result ≡ named_in id_of_shard id.now self.now }
    {
        match self.ids.get_index_of(id) {
            None => None,
            Some(place) => self.shards.get(place),
        }
    }
}
