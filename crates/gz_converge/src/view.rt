//! What the key space says of journals, shards and members.
ghost use Rattle.std.specs.Prelude.{◌≡◌, IfOk};
ghost use Rattle.gz_keyspace.specs.Keys.{keys_after};
ghost use Rattle.gz_converge.specs.Views.{View, view_of};

use crate::read::{journals_in, members_in, rows_of, shards_in};
use gz_keyspace::{Ids, Joined, KeySpace, Mirror};
use gz_label::NoMemory;
use gz_spec::{JournalSpec, ShardSpec};
use std::alloc::Global;
use std::marker::Model;

/// The members that a `route` or an `assign` key lists, in its order, and the revision of the change that put it. The
/// revision of a route is its epoch.
#[derive(Debug, Drop)]
pub struct Listed {
    pub ids: Ids,
    pub revision: u64,
}

/// The epoch that a `sync` key says, and the revision of the change that put it.
#[derive(Debug, Drop)]
pub struct Synced {
    pub epoch: u64,
    pub revision: u64,
}

/// A journal: its specification and the revision of the change that put it, its route and its sync key, where they
/// are there.
#[derive(Debug, Drop)]
pub struct JournalView {
    pub spec: JournalSpec,
    pub revision: u64,
    pub route: Option<Listed>,
    pub sync: Option<Synced>,
}

/// A shard: its specification and the revision of the change that put it, and its list of consumers, where it is
/// there.
#[derive(Debug, Drop)]
pub struct ShardView {
    pub spec: ShardSpec,
    pub revision: u64,
    pub list: Option<Listed>,
}

/// A member that has its key, and the revision of the change that put it.
#[derive(Debug, Drop)]
pub struct MemberView {
    pub joined: Joined,
    pub revision: u64,
}

/// What the key space says: journals in the order of their names, shards and members in that of their ids.
#[derive(Drop)]
pub struct KeyView {
    journals: Vec<JournalView>,
    shards: Vec<ShardView>,
    members: Vec<MemberView>,
}

impl Model for KeyView {
    ghost use Rattle.gz_converge.specs.Views.{View};

    ghost Value = { View };

    ghost view = { λ a. record { journals = a.journals.items; shards = a.shards.items; members = a.members.items } };
}

impl KeyView {
    /// What the keys of the key space say. A value that isn't of its key's form is left out, and so is a specification
    /// under another name than its own. A route, a sync key and a list are read where their journal's or their
    /// shard's specification is there.
    pub fn of(alloc: Global, keys: &KeySpace) -> Result<KeyView, NoMemory>
        ensures { IfOk result (λ view. view ≡ view_of (keys_after keys.now.changes)) }
    {
        let mirror = Mirror::of(keys)?;
        let rows = rows_of(alloc, &mirror)?;
        Ok(KeyView {
            journals: journals_in(alloc, &mirror, rows.as_slice())?,
            shards: shards_in(alloc, &mirror, rows.as_slice())?,
            members: members_in(alloc, rows.as_slice())?,
        })
    }

    /// The journals, in the order of their names. It takes no memory.
    pub fn journals(&self) -> &[JournalView]
        ensures { result.now ≡ self.now.journals }
    {
        self.journals.as_slice()
    }

    /// The shards, in the order of their ids. It takes no memory.
    pub fn shards(&self) -> &[ShardView]
        ensures { result.now ≡ self.now.shards }
    {
        self.shards.as_slice()
    }

    /// The members that have their keys, in the order of their ids. It takes no memory.
    pub fn members(&self) -> &[MemberView]
        ensures { result.now ≡ self.now.members }
    {
        self.members.as_slice()
    }
}
