//! Journals and the shards that read and write them.
ghost use Rattle.std.specs.Prelude.{◌≡◌, ◌+◌, ◌<◌, ◌≤◌, ◌^◌, length, map, IfOk, OnOk, OnErr};
ghost use Rattle.gz_journal.specs.JournalList.{plain};
ghost use Rattle.gz_promise.specs.Journals.{answer_in, landing, place_of};
ghost use Rattle.gz_plain.specs.Places.{names_of};
ghost use Rattle.gz_plain.specs.Reports.{report_of};
ghost use Rattle.gz_plain.specs.Runs.{changed, nothing, with_journals};
ghost use Rattle.gz_promise.specs.Names.{Distinct};
ghost use Rattle.gz_plain.specs.Shards.{settled};
ghost use Rattle.gz_plain.specs.Cluster.{AreLinked, AreSmall, definitions_of};

use crate::begin::add_journals;
use crate::change::redefine_all;
use crate::journals::{Journal, Journals};
use crate::report::{ShardReport, report_all};
use crate::settle::settle_all;
use crate::shard::Shard;
use gz_app::AppKind;
use gz_journal::Landed;
use gz_label::{Attempt, Blob, Name, NoMemory};
use std::alloc::Global;
use std::marker::Model;
use std::mem;

/// A source of a shard: a journal, and the offset from which it is read.
#[derive(Debug, Drop)]
pub struct Source {
    pub journal: Name,
    pub from: u64,
}

/// What a shard is said to be. Outputs are in ascending order of their names.
#[derive(Drop)]
pub struct Definition {
    pub id: Name,
    /// The prefix of its recovery log.
    pub log: Name,
    pub sources: Vec<Source>,
    pub outputs: Vec<Name>,
    pub app: AppKind,
    pub is_disabled: bool,
}

/// Journals, and the shards that read and write them. Contracts see the journals' entries, and the shards as the definitions
/// have them.
#[derive(Drop)]
pub struct Cluster {
    journals: Journals,
    shards: Vec<Shard>,
}

impl Model for Cluster {
    ghost use Rattle.gz_plain.specs.Shards.{World};
    ghost use Rattle.gz_plain.specs.Places.{names_of};
    ghost use Rattle.gz_plain.specs.Running.{AllKept};
    ghost use Rattle.gz_promise.specs.Names.{Distinct};
    ghost use Rattle.gz_plain.specs.Seen.{shards_of};

    ghost Value = { World };

    ghost view = { λ a. record { journals = a.journals; shards = shards_of a.shards.items } };

    ghost invariant = { λ a. Distinct (names_of a.journals) × AllKept a.journals a.shards.items };
}

impl Cluster {
    /// Neither journals nor shards. It takes no memory.
    pub fn new(alloc: Global) -> Cluster
        ensures { result ≡ nothing }
    {
        Cluster {
            journals: Journals::new(alloc),
            shards: Vec::new(alloc),
        }
    }

    /// Journals of these names come behind the others, empty, and the shards are of these definitions from now on. A
    /// definition of the next shard's id is that shard's, and any other one begins a shard, whose lines carry the
    /// producer 05 and the next number. A shard of another definition reads on from where its commits have read each
    /// journal to. After NoMemory it isn't used again.
    #[tactic(auto, using(crate::proofs::Added::all_kept_added, crate::proofs::Settling::length_seen))]
    pub fn change(
        &mut self,
        alloc: Global,
        names: Vec<Name>,
        definitions: Vec<Definition>,
    ) -> Result<(), NoMemory>
        requires names { Distinct (names_of (with_journals names.items self.old.journals)) }
        requires few { length self.old.shards + length definitions.items < 2 ^ 40 }
        requires offsets { AreSmall definitions.items }
        requires linked { AreLinked (with_journals names.items self.old.journals)
            (definitions_of definitions.items) }
        ensures { OnOk result
            (self.new ≡ changed names.items (definitions_of definitions.items) self.old) }
    {
        let mut journals = mem::replace(&mut self.journals, Journals::new(alloc));
        let shards = mem::replace(&mut self.shards, Vec::new(alloc));
        add_journals(alloc, names, &mut journals)?;
        let shards = redefine_all(alloc, definitions, shards, &journals)?;
        self.journals = journals;
        self.shards = shards;
        Ok(())
    }

    /// The journals, in the order in which they were named. It takes no memory.
    pub fn journals(&self) -> &[Journal]
        ensures { result.now ≡ self.now.journals }
    {
        self.journals.as_slice()
    }

    /// The place of the first journal of this name, and how many there are where there is none.
    pub fn place_of(&self, name: &[u8]) -> usize
        ensures { result ≡ place_of name.now self.now.journals }
    {
        self.journals.place_of(name)
    }

    /// Appends the bytes to the journal of this name, if there is one, as one entry of this attempt, and gives the
    /// journal's answer: they land, or it would end above 2^62. No bytes are no entry. Where there is no such journal,
    /// the answer is that of an empty one. After NoMemory nothing has changed.
    #[tactic(auto, using(crate::proofs::Landing::landing_is, crate::proofs::Landing::answer_is))]
    pub fn append(&mut self, name: &[u8], attempt: Attempt, bytes: Blob) -> Result<Landed, NoMemory>
        ensures answer { IfOk result
            (λ landed. landed ≡ answer_in name.now (plain attempt bytes) self.old.journals) }
        ensures ok { OnOk result
            (self.new ≡ record self.old { journals = landing attempt name.now bytes self.old.journals }) }
        ensures err { OnErr result (self.new ≡ self.old) }
    {
        let place = self.journals.place_of(name);
        let landed = self.journals.append_at(place, attempt, bytes)?;
        Ok(landed)
    }

    /// Everything that is due happens: the shards step in turn, again and again until nothing more is released. After
    /// NoMemory it isn't used again.
    pub fn settle(&mut self, alloc: Global) -> Result<(), NoMemory>
        ensures { OnOk result (self.new ≡ settled self.old) }
    {
        let mut journals = mem::replace(&mut self.journals, Journals::new(alloc));
        let shards = mem::replace(&mut self.shards, Vec::new(alloc));
        let shards = settle_all(alloc, shards, &mut journals)?;
        self.journals = journals;
        self.shards = shards;
        Ok(())
    }

    /// What is told of each shard.
    pub fn reports(&self, alloc: Global) -> Result<Vec<ShardReport>, NoMemory>
        ensures { IfOk result
            (λ reports. reports.items ≡ map (report_of self.now.journals) self.now.shards) }
    {
        report_all(alloc, self.shards.as_slice(), &self.journals)
    }
}
