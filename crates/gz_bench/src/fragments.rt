//! Work with the fragments of a journal.

use gz_fragment::{FragmentError, Index, name_of};
use gz_label::{Blob, NoMemory};
use std::alloc::Global;

/// The bytes of a fragment.
const LENGTH: u64 = 8;

/// A factor that scatters the fragments and the offsets over the journal.
const SCATTER: u64 = 2_654_435_761;

/// The fragment that a turn adds.
fn place(turn: u32, count: u32) -> u64 {
    (turn as u64).wrapping_mul(SCATTER) % (count.max(1) as u64)
}

/// The index of so many fragments of one journal, each behind another, which are added in a scattered order.
fn index(alloc: Global, count: u32) -> Result<Index, NoMemory> {
    let mut index = Index::new(alloc);
    for turn in 0..count {
        let begin = place(turn, count).wrapping_mul(LENGTH);
        let bytes = begin.to_be_bytes();
        let Some(name) = name_of(begin, &bytes) else {
            return Ok(index);
        };
        match index.add(name, Blob::of(alloc, &bytes)?) {
            Ok(()) => {}
            Err(FragmentError::NoMemory) => return Err(NoMemory),
            Err(_) => return Ok(index),
        }
    }
    Ok(index)
}

/// Adds so many fragments, and asks as often for the end, for the fragment at a place, and for the one that covers an
/// offset. Answers how many were found.
pub fn cover_all(alloc: Global, count: u32) -> Result<u64, NoMemory> {
    let index = index(alloc, count)?;
    let mut found = 0u64;
    for turn in 0..count {
        let place = place(turn, count);
        let offset = place.wrapping_mul(LENGTH).saturating_add(3);
        let is_there = index.nth(place as usize).is_some();
        if is_there && offset < index.end() && index.covers(offset).is_some() {
            found = found.saturating_add(1);
        }
    }
    Ok(found)
}
