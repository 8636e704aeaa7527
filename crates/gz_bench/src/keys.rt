//! Work with a key space.

use gz_keyspace::{KeyError, KeySpace};
use gz_label::{Blob, KeyWrite, Name, NoMemory};
use std::alloc::Global;

/// How many keys take turns.
const KEYS: u32 = 10_000;

/// The write of a turn, which gives its key the turn's number as the value.
fn write(alloc: Global, turn: u32) -> Result<KeyWrite, NoMemory> {
    let number = turn % KEYS;
    let key = format!(in alloc; "key{number:05}")?;
    let Ok(key) = Name::read(alloc, key.as_bytes()) else {
        return Err(NoMemory);
    };
    let value = format!(in alloc; "{turn}")?;
    let value = Blob::of(alloc, value.as_bytes())?;
    Ok(KeyWrite {
        key,
        value: Some(value),
    })
}

/// Makes so many transactions, each of which writes one key. Answers the revision after them.
pub fn write_all(alloc: Global, count: u32) -> Result<u64, NoMemory> {
    let mut keys = KeySpace::new(alloc);
    for turn in 0..count {
        let write = write(alloc, turn)?;
        match keys.txn(&[], &[write]) {
            Ok(_) => {}
            Err(KeyError::NoMemory) => return Err(NoMemory),
            Err(_) => return Ok(0),
        }
    }
    Ok(keys.revision())
}
