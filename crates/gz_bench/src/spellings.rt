//! Work with spellings of messages.

use gz_label::{Blob, Name, NoMemory};
use gz_spelling::{WireError, decode, encode};
use gz_wire::Msg;
use std::alloc::Global;

/// The bytes of a small content.
const SMALL: usize = 16;

/// The bytes of a large content.
const LARGE: usize = 1_048_576;

fn name(alloc: Global, text: &[u8]) -> Result<Name, NoMemory> {
    match Name::read(alloc, text) {
        Ok(name) => Ok(name),
        Err(_) => Err(NoMemory),
    }
}

/// A content of so many bytes.
fn content(alloc: Global, len: usize) -> Result<Blob, NoMemory> {
    let bytes = vec![in alloc; 7; len]?;
    Ok(Blob::from_vec(bytes))
}

/// Whether the message is read from its spelling, all of which it takes.
fn comes_back(alloc: Global, peer: &Name, msg: &Msg) -> Result<bool, NoMemory> {
    let spelling = match encode(alloc, peer, msg) {
        Ok(spelling) => spelling,
        Err(WireError::NoMemory) => return Err(NoMemory),
        Err(_) => return Ok(false),
    };
    match decode(alloc, spelling.as_slice()) {
        Ok(read) => Ok(read.used == spelling.len()),
        Err(WireError::NoMemory) => Err(NoMemory),
        Err(_) => Ok(false),
    }
}

/// A small message of the turn: every other one has a content.
fn small(alloc: Global, turn: u32) -> Result<Msg, NoMemory> {
    let journal = name(alloc, b"src/a")?;
    let offset = turn as u64;
    if turn % 2 == 0 {
        return Ok(Msg::Held {
            journal,
            epoch: 3,
            end: offset,
        });
    }
    Ok(Msg::StoreGot {
        req: 1,
        journal,
        status: 0,
        offset,
        content: content(alloc, SMALL)?,
    })
}

/// Spells so many small messages, and reads each. Answers how many came back.
pub fn spell_all(alloc: Global, count: u32) -> Result<u64, NoMemory> {
    let peer = name(alloc, b"b1")?;
    let mut came = 0u64;
    for turn in 0..count {
        let msg = small(alloc, turn)?;
        if comes_back(alloc, &peer, &msg)? {
            came = came.saturating_add(1);
        }
    }
    Ok(came)
}

/// Spells one message with a content of a megabyte so many times, and reads it. Answers how often it came back.
pub fn spell_large(alloc: Global, count: u32) -> Result<u64, NoMemory> {
    let peer = name(alloc, b"b1")?;
    let msg = Msg::StoreGot {
        req: 1,
        journal: name(alloc, b"src/a")?,
        status: 0,
        offset: 0,
        content: content(alloc, LARGE)?,
    };
    let mut came = 0u64;
    for _ in 0..count {
        if comes_back(alloc, &peer, &msg)? {
            came = came.saturating_add(1);
        }
    }
    Ok(came)
}
