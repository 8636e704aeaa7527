//! Journals: lists of entries that only grow.
ghost use Rattle.std.specs.Prelude.{◌≡◌, ◌≤◌, ◌^◌, ◌++◌, ◌∷◌, [], length, take, drop, IfOk, OnOk, OnErr, MatchOption};
ghost use Rattle.gz_journal.specs.JournalList.{registers_of, judged_of, plain};
ghost use Rattle.gz_promise.specs.Journals.{text_in, entries_after, place_of, text_at, answer_at, landing_at};

use gz_journal::{JournalState, Landed};
use gz_label::{Attempt, Blob, LabelSet, Name, NoMemory};
use std::alloc::Global;
use std::marker::Model;

/// A journal: its name, and the entries that were appended, whose text has at most 2^62 bytes. None of them sets
/// registers.
#[derive(Debug, Drop)]
pub struct Journal {
    name: Name,
    state: JournalState,
}

impl Model for Journal {
    ghost use Rattle.std.specs.Prelude.{◌≡◌, ◌≤◌, ◌^◌, []};
    ghost use Rattle.gz_journal.specs.JournalList.{end_of, registers_of};
    ghost use Rattle.gz_promise.specs.Journals.{Journal as Seen};

    ghost Value = { Seen };

    ghost view = { λ a. record { name = a.name; entries = a.state } };

    ghost invariant = { λ a. (end_of a.state ≤ 2 ^ 62) × (registers_of a.state ≡ []) };
}

impl Journal {
    /// An empty journal of this name. It takes no memory.
    pub fn new(alloc: Global, name: Name) -> Journal
        ensures { result ≡ record { name = name; entries = [] } }
    {
        Journal {
            name,
            state: JournalState::new(alloc),
        }
    }

    /// The name. It takes no memory.
    pub fn name(&self) -> &Name
        ensures { result.now ≡ self.now.name }
    {
        &self.name
    }

    /// The registers after the last entry. It takes no memory.
    pub fn registers(&self) -> &LabelSet
        ensures { result.now ≡ registers_of self.now.entries }
    {
        self.state.registers()
    }

    /// The length of the text, at most 2^62. It takes no memory.
    pub fn end(&self) -> u64
        ensures value { result ≡ length (text_in self.now) }
        ensures short { result ≤ 2 ^ 62 }
    {
        self.state.end()
    }

    /// The text from the offset on, at most `limit` bytes of it, and none at or past the end. Time goes with these bytes,
    /// and with the logarithm of the number of entries.
    pub fn read_at(&self, offset: u64, limit: u64) -> Result<Blob, NoMemory>
        ensures { IfOk result (λ bytes. bytes ≡ take limit (drop offset (text_in self.now))) }
    {
        let bytes = self.state.read_at(offset, limit)?;
        Ok(bytes)
    }

    /// Appends the bytes as an entry of this attempt, unless they are none: they land, or the text would end above 2^62.
    /// After NoMemory nothing has changed.
    #[tactic(auto, using(gz_promise::proofs::Entries::lands_behind))]
    pub fn append(&mut self, attempt: Attempt, bytes: Blob) -> Result<Landed, NoMemory>
        ensures answer { IfOk result
            (λ landed. landed ≡ (judged_of self.old.entries (plain attempt bytes)).landed) }
        ensures ok { OnOk result
            (self.new ≡ record self.old { entries = entries_after attempt bytes self.old.entries }) }
        ensures err { OnErr result (self.new ≡ self.old) }
    {
        let landed = self.state.append(attempt, bytes)?;
        Ok(landed)
    }
}

/// Journals, which a contract sees as their list.
#[derive(Debug, Drop)]
pub struct Journals {
    journals: Vec<Journal>,
}

impl Model for Journals {
    ghost use Rattle.std.specs.Prelude.{List};
    ghost use Rattle.gz_promise.specs.Journals.{Journal};

    ghost Value = { List Journal };

    ghost view = { λ a. a.journals.items };
}

fn place_among(journals: &[Journal], name: &[u8]) -> usize
    ensures { result ≡ place_of name.now journals.now }
{
    for (i, journal) in journals.iter().enumerate() {
        if journal.name().as_slice() == name {
            return i;
        }
    }
    journals.len()
}

/// The journal at this place, which has the text there.
#[tactic(auto, using(crate::proofs::Places::text_at_read, crate::proofs::Places::text_at_past))]
fn journal_among(journals: &[Journal], place: usize) -> Option<&Journal>
    ensures { MatchOption result (text_at place journals.now ≡ [])
        (λ journal. text_in journal.now ≡ text_at place journals.now) }
{
    journals.get(place)
}

/// What an empty journal answers to an append of these bytes.
fn answer_empty(alloc: Global, attempt: Attempt, bytes: Blob) -> Result<Landed, NoMemory>
    ensures { IfOk result (λ landed. landed ≡ (judged_of [] (plain attempt bytes)).landed) }
{
    let mut empty = JournalState::new(alloc);
    empty.append(attempt, bytes)
}

/// Appends the bytes to the journal at this place, if there is one, as an entry of this attempt; where there is none,
/// the answer is that of an empty one. After NoMemory nothing has changed.
#[tactic(auto, using(crate::proofs::Landing::landing_at_set, crate::proofs::Landing::landing_at_past, crate::proofs::Landing::answer_at_read, crate::proofs::Landing::answer_at_past))]
fn append_among(
    alloc: Global,
    journals: &mut [Journal],
    place: usize,
    attempt: Attempt,
    bytes: Blob,
) -> Result<Landed, NoMemory>
    ensures answer { IfOk result
        (λ landed. landed ≡ answer_at place (plain attempt bytes) journals.old) }
    ensures ok { OnOk result (journals.new ≡ landing_at attempt place bytes journals.old) }
    ensures err { OnErr result (journals.new ≡ journals.old) }
{
    if place >= journals.len() {
        return answer_empty(alloc, attempt, bytes);
    }
    journals[place].append(attempt, bytes)
}

impl Journals {
    /// No journals. It takes no memory.
    pub fn new(alloc: Global) -> Journals
        ensures { result ≡ [] }
    {
        Journals {
            journals: Vec::new(alloc),
        }
    }

    /// Adds an empty journal behind the others.
    pub fn add(&mut self, alloc: Global, name: Name) -> Result<(), NoMemory>
        ensures { OnOk result (self.new ≡ self.old ++ record { name = name; entries = [] } ∷ []) }
    {
        self.journals.push(Journal::new(alloc, name))?;
        Ok(())
    }

    /// The journals. It takes no memory.
    pub fn as_slice(&self) -> &[Journal]
        ensures { result.now ≡ self.now }
    {
        self.journals.as_slice()
    }

    /// The place of the first journal of this name, and how many there are where there is none.
    pub fn place_of(&self, name: &[u8]) -> usize
        ensures { result ≡ place_of name.now self.now }
    {
        place_among(self.journals.as_slice(), name)
    }

    /// The journal at this place. None exactly where there is no such place. It takes no memory.
    pub fn get(&self, place: usize) -> Option<&Journal>
        ensures { MatchOption result (text_at place self.now ≡ [])
            (λ journal. text_in journal.now ≡ text_at place self.now) }
    {
        journal_among(self.journals.as_slice(), place)
    }

    /// The length of the text at this place, at most 2^62, and 0 where there is no such place.
    pub fn end_at(&self, place: usize) -> u64
        ensures value { result ≡ length (text_at place self.now) }
        ensures short { result ≤ 2 ^ 62 }
    {
        match self.get(place) {
            Some(journal) => journal.end(),
            None => 0,
        }
    }

    /// Appends the bytes to the journal at this place, if there is one, as an entry of this attempt, and gives its
    /// answer; where there is none, that of an empty one. After NoMemory nothing has changed.
    pub fn append_at(
        &mut self,
        place: usize,
        attempt: Attempt,
        bytes: Blob,
    ) -> Result<Landed, NoMemory>
        ensures answer { IfOk result
            (λ landed. landed ≡ answer_at place (plain attempt bytes) self.old) }
        ensures ok { OnOk result (self.new ≡ landing_at attempt place bytes self.old) }
        ensures err { OnErr result (self.new ≡ self.old) }
    {
        let alloc = *self.journals.allocator();
        append_among(alloc, self.journals.as_mut_slice(), place, attempt, bytes)
    }
}
