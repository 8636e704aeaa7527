//! The end of a journal, as one of its members holds it.
ghost use Rattle.std.specs.Prelude.{◌≡◌, ◌≤◌, ◌<◌, ◌+◌, ◌++◌, List, length, take, drop, slice_index_or, true, false, IfOk, IfSome, OnOk, OnErr, MatchOption};
ghost use Rattle.std.specs.VecDeque.{deque_capacity, deque_len};
ghost use Rattle.gz_label.specs.declared.label.Label.{Label};
ghost use Rattle.gz_journal.specs.JournalList.{end_of, max_end};
ghost use Rattle.gz_spool.specs.Spools.{empty_at, extended, fit_at, has_boundary, is_image, raised, registers_behind, rest_behind, rest_from, spool_end, spool_registers, trimmed, with_entry, with_image};

use crate::SpoolError;
use gz_label::{Entries, Entry, Image, LabelSet, NoMemory};
use std::alloc::Global;
use std::collections::VecDeque;
use std::marker::Model;

/// The greatest end of a spool, 2^62.
const MAX_END: u64 = 1 << 62;

/// The end of a journal: entries that follow one another from the offset `begin` on, the registers before
/// them, and a head between begin and end, up to which they are known to be acknowledged. A contract sees
/// it as its image, and for how many entries more it has room.
#[derive(Debug, Drop)]
pub struct Spool {
    begin: u64,
    base: LabelSet,
    entries: VecDeque<Entry>,
    head: u64,
    end: u64,
}

impl Model for Spool {
    ghost use Rattle.std.specs.Prelude.{◌≡◌, ◌≤◌, ◌+◌, ◌-◌, ◌^◌};
    ghost use Rattle.std.specs.VecDeque.{deque_capacity, deque_len};
    ghost use Rattle.gz_journal.specs.JournalList.{end_of};
    ghost use Rattle.gz_spool.specs.Spools.{Kept};

    ghost Value = { Kept };

    ghost view = { λ a. record { image = record { begin = a.begin; base = a.base; entries = a.entries.items; head = a.head }; spare = deque_capacity a.entries - deque_len a.entries } };

    ghost invariant = { λ a. (a.begin ≤ a.head) × (a.head ≤ a.end) × (a.end ≤ 2 ^ 62) × (a.end ≡ a.begin + end_of a.entries.items) };
}

/// Where entries end that begin at this offset, or None where that is above the greatest end.
fn end_within(begin: u64, entries: &[Entry]) -> Option<u64>
    ensures { MatchOption result (max_end < begin + end_of entries.now)
        (λ end. (end ≡ begin + end_of entries.now) × (end ≤ max_end)) }
{
    if begin > MAX_END {
        return None;
    }
    let mut end = begin;
    for entry in entries {
        let len = entry.bytes.len() as u64;
        if len > MAX_END - end {
            return None;
        }
        end += len;
    }
    Some(end)
}

/// How many entries stand before the offset, where it is the boundary of one. The first begins at `begin`.
fn count_before(entries: &VecDeque<Entry>, begin: u64, offset: u64) -> Option<usize>
    requires { begin + end_of entries.now.items ≤ max_end }
    ensures value { (base : List Label) →
        rest_from offset begin base entries.now.items ≡ rest_behind base entries.now.items result }
    ensures within { IfSome result (λ count. count ≤ length entries.now.items) }
    ensures rest { IfSome result
        (λ count. offset + end_of (drop count entries.now.items)
        ≡ begin + end_of entries.now.items) }
{
    let mut at = begin;
    let mut count = 0;
    'entries: while at < offset && count < entries.len() {
        at += entries[count].bytes.len() as u64;
        count += 1;
    }
    if at == offset {
        return Some(count);
    }
    None
}

/// Drops the first entry, whose registers become the base.
fn drop_one(entries: &mut VecDeque<Entry>, base: &mut LabelSet)
    requires { 0 < length entries.old.items }
    ensures entries { entries.new.items ≡ drop 1 entries.old.items }
    ensures base { base.new ≡ registers_behind base.old (take 1 entries.old.items) }
    ensures capacity { deque_capacity entries.new ≡ deque_capacity entries.old }
    ensures len { deque_len entries.new ≤ deque_len entries.old }
{
    if let Some(entry) = entries.pop_front() {
        let Entry { registers, .. } = entry;
        *base = registers;
    }
}

#[tactic(auto, using(crate::proofs::Ends::drop_more, crate::proofs::Ends::behind_more))]
/// Drops so many of the first entries; the base becomes the registers behind them.
fn drop_first(entries: &mut VecDeque<Entry>, base: &mut LabelSet, count: usize)
    requires { count ≤ length entries.old.items }
    ensures entries { entries.new.items ≡ drop count entries.old.items }
    ensures base { base.new ≡ registers_behind base.old (take count entries.old.items) }
    ensures capacity { deque_capacity entries.new ≡ deque_capacity entries.old }
    ensures len { deque_len entries.new ≤ deque_len entries.old }
{
    for _i in 0..count {
        drop_one(entries, base);
    }
}

fn append_copies(out: &mut Vec<Entry>, entries: &[Entry]) -> Result<(), NoMemory>
    ensures { OnOk result (out.new.items ≡ out.old.items ++ entries.now) }
{
    for entry in entries {
        let one = entry.copy()?;
        out.push(one)?;
    }
    Ok(())
}

impl Spool {
    /// No entries, from this offset on. It takes no memory.
    pub fn new(alloc: Global, begin: u64) -> Spool
        requires { begin ≤ max_end }
        ensures { result.image ≡ empty_at begin }
    {
        Spool {
            begin,
            base: LabelSet::new(alloc),
            entries: VecDeque::new(alloc),
            head: begin,
            end: begin,
        }
    }

    /// The image as a spool, or None exactly where its head isn't between its begin and its end, or its end
    /// is above 2^62. It takes no memory.
    pub fn adopt(image: Image) -> Option<Spool>
        ensures { MatchOption result (is_image image ≡ false)
            (λ spool. (is_image image ≡ true) × (spool.image ≡ image)) }
    {
        let Image {
            begin,
            base,
            entries,
            head,
        } = image;
        let end = end_within(begin, entries.as_slice())?;
        if head < begin || head > end {
            return None;
        }
        Some(Spool {
            begin,
            base,
            entries: VecDeque::from_vec(entries.into_vec()),
            head,
            end,
        })
    }

    /// What the spool holds, as a copy.
    pub fn image(&self) -> Result<Image, NoMemory>
        ensures { IfOk result (λ image. image ≡ self.now.image) }
    {
        let mut entries = Vec::new(*self.entries.allocator());
        let (first, second) = self.entries.as_slices();
        append_copies(&mut entries, first)?;
        append_copies(&mut entries, second)?;
        Ok(Image {
            begin: self.begin,
            base: self.base.copy()?,
            entries: Entries::of(entries),
            head: self.head,
        })
    }

    /// The offset of the first entry. It takes no memory.
    pub fn begin(&self) -> u64
        ensures { result ≡ self.now.image.begin }
    {
        self.begin
    }

    /// The offset up to which the entries are known to be acknowledged. It takes no memory.
    pub fn head(&self) -> u64
        ensures { result ≡ self.now.image.head }
    {
        self.head
    }

    /// The offset behind the last entry, at most 2^62. It takes no memory.
    pub fn end(&self) -> u64
        ensures value { result ≡ spool_end self.now.image }
        ensures within { result ≤ max_end }
        ensures image { is_image self.now.image ≡ true }
    {
        self.end
    }

    /// The registers behind the last entry, or the base where there is none. It takes no memory.
    pub fn registers(&self) -> &LabelSet
        ensures { result.now ≡ spool_registers self.now.image }
    {
        match self.entries.back() {
            Some(entry) => &entry.registers,
            None => &self.base,
        }
    }

    /// How many entries there are. It takes no memory.
    pub fn len(&self) -> usize
        ensures { result ≡ length self.now.image.entries }
    {
        self.entries.len()
    }

    /// The entry at this place, counted from 0. It takes no memory.
    pub fn entry(&self, place: usize) -> &Entry
        requires { place < length self.now.image.entries }
        ensures { result.now ≡ slice_index_or self.now.image.entries place result.now }
    {
        &self.entries[place]
    }

    /// For how many entries more there is room. It takes no memory.
    pub fn spare(&self) -> usize
        ensures { result ≡ self.now.spare }
    {
        self.entries.capacity() - self.entries.len()
    }

    /// Room for so many entries more. The image stays, also after NoMemory.
    pub fn reserve(&mut self, more: usize) -> Result<(), NoMemory>
        ensures ok { OnOk result (more ≤ self.new.spare) }
        ensures stays { self.new.image ≡ self.old.image }
    {
        self.entries.reserve(more)?;
        Ok(())
    }

    /// Puts the entry at the end, which has to be its offset: Gap where the offset is behind the end, Old
    /// where it is before the end; then nothing changes. It takes no memory.
    pub fn extend(&mut self, offset: u64, entry: Entry) -> Result<(), SpoolError>
        requires room { 0 < self.old.spare }
        requires limit { spool_end self.old.image + length entry.bytes ≤ max_end }
        ensures answer { result ≡ fit_at offset self.old.image }
        ensures ok { OnOk result (self.new ≡ with_entry entry self.old) }
        ensures err { OnErr result (self.new ≡ self.old) }
    {
        if offset > self.end {
            return Err(SpoolError::Gap { end: self.end });
        }
        if offset < self.end {
            return Err(SpoolError::Old { end: self.end });
        }
        self.end += entry.bytes.len() as u64;
        self.entries.push_back_reserved(entry);
        Ok(())
    }

    /// Puts the entry at the end, wherever that is. After NoMemory the image is as before.
    pub fn push(&mut self, entry: Entry) -> Result<(), NoMemory>
        requires { spool_end self.old.image + length entry.bytes ≤ max_end }
        ensures ok { OnOk result (self.new.image ≡ extended entry self.old.image) }
        ensures err { OnErr result (self.new.image ≡ self.old.image) }
    {
        let end = self.end + entry.bytes.len() as u64;
        self.entries.push_back(entry)?;
        self.end = end;
        Ok(())
    }

    /// The head becomes the greater of the old one and of this one, but for what is above the end. It takes
    /// no memory.
    pub fn raise_head(&mut self, head: u64)
        ensures { self.new ≡ with_image (raised head self.old.image) self.old }
    {
        self.head = self.head.max(head.min(self.end));
    }

    /// The begin that `trim_to` of this offset leaves: the offset, where it is a boundary of entries from the
    /// old begin to the head, or the old begin. It takes no memory.
    pub fn begin_after(&self, offset: u64) -> u64
        ensures { result ≡ (trimmed offset self.now.image).begin }
    {
        if offset > self.head {
            return self.begin;
        }
        match count_before(&self.entries, self.begin, offset) {
            Some(_count) => offset,
            None => self.begin,
        }
    }

    /// The entries below the offset go, where it is a boundary of entries from the old begin to the head, and
    /// then it is the begin. Else nothing changes, and the answer is false. It takes no memory.
    pub fn trim_to(&mut self, begin: u64) -> bool
        ensures value { result ≡ has_boundary begin self.old.image }
        ensures image { self.new.image ≡ trimmed begin self.old.image }
        ensures spare { self.old.spare ≤ self.new.spare }
    {
        if begin > self.head {
            return false;
        }
        let Some(count) = count_before(&self.entries, self.begin, begin) else {
            return false;
        };
        drop_first(&mut self.entries, &mut self.base, count);
        self.begin = begin;
        true
    }
}
