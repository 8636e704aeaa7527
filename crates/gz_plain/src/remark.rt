//! How far a shard's commits have read journals, for the definition that comes next.
ghost use Rattle.std.specs.Prelude.{◌≡◌, ◌++◌, None, Some, filter, map, not, IfOk, OnOk};
ghost use Rattle.gz_plain.specs.Definitions.{is_read as is_read_by, mark_or as mark_among, marked, marks_after, marks_of as marks_seen};
ghost use Rattle.gz_plain.specs.Seen.{shard_of, source_of};
ghost use Rattle.gz_plain.specs.Shards.{last_offsets as last_seen};
ghost use Rattle.gz_promise.specs.Sources.{froms_of};

use crate::past::{Mark, Past};
use crate::reader::Reader;
use crate::shard::Shard;
use gz_label::NoMemory;
use std::alloc::Global;

/// Whether one of the readers is of this journal.
fn is_read(journal: &[u8], readers: &[Reader]) -> bool
    ensures { result ≡ is_read_by journal.now (map source_of readers.now) }
{
    for reader in readers {
        if reader.journal.as_slice() == journal {
            return true;
        }
    }
    false
}

/// The offsets from which the readers read.
fn froms(alloc: Global, readers: &[Reader]) -> Result<Vec<u64>, NoMemory>
    ensures { IfOk result (λ froms. froms.items ≡ froms_of (map source_of readers.now)) }
{
    let mut froms = Vec::new(alloc);
    for reader in readers {
        froms.push(reader.from)?;
    }
    Ok(froms)
}

/// A mark for each reader, of which there are as many as offsets.
fn mark_all(readers: &[Reader], offsets: &[u64], marks: &mut Vec<Mark>) -> Result<(), NoMemory>
    ensures { OnOk result
        (marks.new.items ≡ marks.old.items ++ marked (map source_of readers.now) offsets.now) }
{
    for (i, reader) in readers.iter().enumerate() {
        if i >= offsets.len() {
            return Ok(());
        }
        let journal = reader.journal.copy()?;
        marks.push(Mark::new(journal, offsets[i]))?;
    }
    Ok(())
}

/// Puts those marks behind the others whose journals the readers don't read.
fn keep_marks(earlier: &[Mark], readers: &[Reader], marks: &mut Vec<Mark>) -> Result<(), NoMemory>
    ensures { OnOk result
        (marks.new.items ≡ marks.old.items ++ filter
        (λ m. not (is_read_by m.journal (map source_of readers.now))) earlier.now) }
{
    for mark in earlier {
        if !is_read(mark.journal().as_slice(), readers) {
            marks.push(mark.copy()?)?;
        }
    }
    Ok(())
}

/// A copy of the marks.
fn copy_marks(alloc: Global, earlier: &[Mark]) -> Result<Vec<Mark>, NoMemory>
    ensures { IfOk result (λ marks. marks.items ≡ earlier.now) }
{
    let mut marks = Vec::new(alloc);
    for mark in earlier {
        marks.push(mark.copy()?)?;
    }
    Ok(marks)
}

/// The offsets of the last commit; where there is none, those from which the readers read.
#[tactic(auto, using(crate::proofs::Remarking::last_row))]
fn last_offsets(alloc: Global, shard: &Shard) -> Result<Vec<u64>, NoMemory>
    ensures { IfOk result (λ offsets. offsets.items ≡ last_seen (shard_of shard.now)) }
{
    let count = shard.commits.len();
    if count == 0 {
        return froms(alloc, shard.readers.as_slice());
    }
    let offsets = &shard.commits[count - 1];
    let offsets = Vec::from_slice(alloc, offsets.as_slice())?;
    Ok(offsets)
}

/// How far a shard's commits have read each journal, where it keeps the definition that it began with.
fn first_marks(alloc: Global, shard: &Shard) -> Result<Vec<Mark>, NoMemory>
    ensures { IfOk result (λ marks. marks.items ≡ marks_after None (shard_of shard.now)) }
{
    let mut marks = Vec::new(alloc);
    if shard.commits.is_empty() {
        return Ok(marks);
    }
    let offsets = last_offsets(alloc, shard)?;
    mark_all(shard.readers.as_slice(), offsets.as_slice(), &mut marks)?;
    Ok(marks)
}

/// How far a shard's commits have read each journal, where it has had earlier definitions.
fn later_marks(alloc: Global, past: &Past, shard: &Shard) -> Result<Vec<Mark>, NoMemory>
    ensures { IfOk result
        (λ marks. marks.items ≡ marks_after (Some past.now) (shard_of shard.now)) }
{
    if shard.commits.len() == past.commits() {
        return copy_marks(alloc, past.marks());
    }
    let mut marks = Vec::new(alloc);
    let offsets = last_offsets(alloc, shard)?;
    mark_all(shard.readers.as_slice(), offsets.as_slice(), &mut marks)?;
    keep_marks(past.marks(), shard.readers.as_slice(), &mut marks)?;
    Ok(marks)
}

/// How far the shard's commits have read each journal.
pub fn marks_of(alloc: Global, shard: &Shard) -> Result<Vec<Mark>, NoMemory>
    ensures { IfOk result (λ marks. marks.items ≡ marks_seen (shard_of shard.now)) }
{
    match &shard.past {
        Some(past) => later_marks(alloc, past, shard),
        None => first_marks(alloc, shard),
    }
}

/// The mark of a journal; where there is none, the offset from which it is read.
pub fn mark_or(from: u64, journal: &[u8], marks: &[Mark]) -> u64
    ensures { result ≡ mark_among from journal.now marks.now }
{
    for mark in marks {
        if mark.journal().as_slice() == journal {
            return mark.offset();
        }
    }
    from
}
