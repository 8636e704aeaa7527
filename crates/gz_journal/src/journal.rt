//! A journal as a list of entries.
ghost use Rattle.std.specs.Prelude.{◌≡◌, ◌≤◌, ◌++◌, [], ◌+◌, ◌∷◌, length, take, IsTrue, IfOk, OnOk, OnErr};
ghost use Rattle.gz_journal.specs.JournalList.{end_of, registers_of, part_of, plain, judged_of, appended, new_end_of, entry_of};
ghost use Rattle.gz_journal.specs.Places.{entries_of, are_placed};

use crate::{Judged, Landed, Request, judge};
use gz_label::{Attempt, Blob, Entry, LabelSet, NoMemory};
use std::alloc::Global;
use std::marker::Model;

/// An entry, and the offset of its end.
#[derive(Debug, Drop)]
struct Placed {
    end: u64,
    entry: Entry,
}

/// A journal, which a contract sees as the list of its entries.
#[derive(Debug, Drop)]
pub struct JournalState {
    placed: Vec<Placed>,
    none: LabelSet,
}

impl Model for JournalState {
    ghost use Rattle.std.specs.Prelude.{List, ◌≡◌, [], IsTrue};
    ghost use Rattle.gz_label.specs.declared.entry.Entry.{Entry};
    ghost use Rattle.gz_journal.specs.Places.{entries_of, are_placed};

    ghost Value = { List Entry };

    ghost view = { λ a. entries_of a.placed.items };

    ghost invariant = { λ a. IsTrue (are_placed 0 a.placed.items) × (a.none ≡ []) };
}

/// Puts the text of the entries at the end of `out`, without the first `skip` bytes and at most `limit`
/// bytes of it.
fn append_part(out: &mut Blob, placed: &[Placed], skip: usize, limit: usize) -> Result<(), NoMemory>
    ensures { OnOk result (out.new ≡ out.old ++ part_of skip limit (entries_of placed.now)) }
{
    let mut before = skip;
    let mut room = limit;
    for one in placed {
        if room == 0 {
            break;
        }
        let bytes = one.entry.bytes.as_slice();
        let (skipped, rest) = bytes.split_at(before.min(bytes.len()));
        let (part, _rest) = rest.split_at(room.min(rest.len()));
        out.append(part)?;
        before -= skipped.len();
        room -= part.len();
    }
    Ok(())
}

/// Where the entry ends that the request adds, if it adds one.
fn new_end(landed: &Landed, request: &Request) -> Option<u64>
    ensures { result ≡ new_end_of landed.now request.now }
{
    match landed {
        Landed::Landed { end, .. } => {
            if request.content.is_empty() {
                return None;
            }
            Some(*end)
        }
        _ => None,
    }
}

/// Where the text of the entries ends, which begin at 0.
fn last_end(placed: &[Placed]) -> u64
    requires { IsTrue (are_placed 0 placed.now) }
    ensures { result ≡ end_of (entries_of placed.now) }
{
    if placed.len() == 0 {
        return 0;
    }
    placed[placed.len() - 1].end
}

/// How many of the entries, from the first on, end at or before the offset.
fn count_before(placed: &[Placed], offset: u64) -> usize
    requires { IsTrue (are_placed 0 placed.now) }
    ensures within { result ≤ length placed.now }
    ensures before { end_of (take result (entries_of placed.now)) ≤ offset }
{
    let mut low = 0;
    let mut high = placed.len();
    'halves: while low < high {
        let middle = low + (high - low) / 2;
        if placed[middle].end <= offset {
            low = middle + 1;
        } else {
            high = middle;
        }
    }
    low
}

impl JournalState {
    /// The empty journal. It takes no memory.
    pub fn new(alloc: Global) -> JournalState
        ensures { result ≡ [] }
    {
        JournalState {
            placed: Vec::new(alloc),
            none: LabelSet::new(alloc),
        }
    }

    /// The length of the text. It takes no memory.
    pub fn end(&self) -> u64
        ensures { result ≡ end_of self.now }
    {
        last_end(self.placed.as_slice())
    }

    /// The registers after the last entry, and none before the first. It takes no memory.
    pub fn registers(&self) -> &LabelSet
        ensures { result.now ≡ registers_of self.now }
    {
        let placed = self.placed.as_slice();
        if placed.len() == 0 {
            return &self.none;
        }
        &placed[placed.len() - 1].entry.registers
    }

    #[tactic(auto, using(crate::proofs::Ends::new_end_judged, crate::proofs::Ends::appended_none, crate::proofs::Ends::appended_some))]
    /// Judges the request, and appends one entry where content lands that isn't empty. After NoMemory
    /// nothing has changed.
    pub fn land(&mut self, request: &Request) -> Result<Landed, NoMemory>
        ensures answer { IfOk result (λ landed. landed ≡ (judged_of self.old request.now).landed) }
        ensures ok { OnOk result
            (self.new ≡ appended (judged_of self.old request.now) request.now self.old) }
        ensures err { OnErr result (self.new ≡ self.old) }
    {
        let judged = judge(self.end(), self.registers(), request)?;
        let Judged { landed, after } = judged;
        let Some(end) = new_end(&landed, request) else {
            return Ok(landed);
        };
        self.push(request, end, after)?;
        Ok(landed)
    }

    /// Appends the content at the end, wherever that is, and leaves the registers as they are: it lands, or the journal would
    /// end above the limit. After NoMemory nothing has changed.
    pub fn append(&mut self, attempt: Attempt, content: Blob) -> Result<Landed, NoMemory>
        ensures answer { IfOk result
            (λ landed. landed ≡ (judged_of self.old (plain attempt content)).landed) }
        ensures ok { OnOk result
            (self.new ≡ appended (judged_of self.old (plain attempt content))
            (plain attempt content) self.old) }
        ensures err { OnErr result (self.new ≡ self.old) }
    {
        let request = Request::plain(*self.placed.allocator(), attempt, content);
        let landed = self.land(&request)?;
        Ok(landed)
    }

    /// Puts the content of the request behind the others, which ends there.
    fn push(&mut self, request: &Request, end: u64, after: LabelSet) -> Result<(), NoMemory>
        requires { end ≡ end_of self.old + length request.now.content }
        ensures ok { OnOk result (self.new ≡ self.old ++ entry_of request.now after ∷ []) }
        ensures err { OnErr result (self.new ≡ self.old) }
    {
        let entry = Entry {
            attempt: request.attempt.copy()?,
            bytes: request.content.copy()?,
            registers: after,
        };
        self.placed.push(Placed { end, entry })?;
        Ok(())
    }

    #[tactic(auto, using(crate::proofs::Ends::placed_prefix, crate::proofs::Ends::part_behind))]
    /// The text from the offset on, at most `limit` bytes of it, and none at or past the end.
    pub fn read_at(&self, offset: u64, limit: u64) -> Result<Blob, NoMemory>
        ensures { IfOk result (λ text. text ≡ part_of offset limit self.now) }
    {
        let placed = self.placed.as_slice();
        let mut out = Blob::new(*self.placed.allocator());
        let (before, rest) = placed.split_at(count_before(placed, offset));
        let skip = offset - last_end(before);
        append_part(&mut out, rest, skip as usize, limit as usize)?;
        Ok(out)
    }
}
