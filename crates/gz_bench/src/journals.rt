//! Work with a journal.

use gz_journal::JournalState;
use gz_label::{Attempt, Blob, Name, NoMemory};
use std::alloc::Global;

/// The most bytes of a read.
const LIMIT: u64 = 64;

/// A factor that scatters the offsets of reads over the journal.
const SCATTER: u64 = 2_654_435_761;

/// A journal of so many entries, each with its number.
fn journal(alloc: Global, count: u32) -> Result<JournalState, NoMemory> {
    let mut journal = JournalState::new(alloc);
    for i in 0..count {
        let attempt = Attempt {
            node: Name::of(alloc, "node")?,
            req: i as u64,
        };
        let content = format!(in alloc; "entry {i}\n")?;
        let content = Blob::of(alloc, content.as_bytes())?;
        let _landed = journal.append(attempt, content)?;
    }
    Ok(journal)
}

/// Appends so many entries. Answers the journal's end.
pub fn append_all(alloc: Global, count: u32) -> Result<u64, NoMemory> {
    let journal = journal(alloc, count)?;
    Ok(journal.end())
}

/// Appends so many entries, and reads a part of the text as many times, at offsets all over it. Answers how many bytes
/// were read.
pub fn read_all(alloc: Global, count: u32) -> Result<u64, NoMemory> {
    let journal = journal(alloc, count)?;
    let end = journal.end().max(1);
    let mut read = 0u64;
    for i in 0..count {
        let offset = (i as u64).wrapping_mul(SCATTER) % end;
        let part = journal.read_at(offset, LIMIT)?;
        read = read.saturating_add(part.len() as u64);
    }
    Ok(read)
}
