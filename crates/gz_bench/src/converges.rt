//! Work with routes and lists of consumers.

use gz_alloc::Placement;
use gz_converge::{Converged, KeyView, Txn, converge};
use gz_keyspace::KeySpace;
use gz_label::{Blob, KeyWrite, Name, NoMemory};
use std::alloc::Global;
use std::slice;

/// How many brokers and consumers there are, in how many zones, and what each holds at most.
const BROKERS: u32 = 48;

const CONSUMERS: u32 = 16;

const ZONES: u32 = 8;

const LIMIT: u32 = 512;

/// How often a converge looks at what stays.
const TURNS: u32 = 20;

fn put(alloc: Global, keys: &mut KeySpace, key: &str, value: &str) -> Result<(), NoMemory> {
    let Ok(key) = Name::read(alloc, key.as_bytes()) else {
        return Err(NoMemory);
    };
    let write = KeyWrite {
        key,
        value: Some(Blob::of(alloc, value.as_bytes())?),
    };
    match keys.txn(&[], slice::from_ref(&write)) {
        Ok(_) => Ok(()),
        Err(_) => Err(NoMemory),
    }
}

fn put_journals(alloc: Global, keys: &mut KeySpace, count: u32) -> Result<(), NoMemory> {
    for i in 0..count {
        let key = format!(in alloc; "journal/j{i:04}")?;
        let value = format!(in alloc; "{{\"name\":\"j{i:04}\",\"replication\":3}}")?;
        put(alloc, keys, key.as_str(), value.as_str())?;
    }
    Ok(())
}

fn put_shards(alloc: Global, keys: &mut KeySpace, count: u32) -> Result<(), NoMemory> {
    for i in 0..count {
        let key = format!(in alloc; "shard/s{i:04}")?;
        let value = format!(in alloc;
            "{{\"id\":\"s{i:04}\",\"hot_standbys\":1,\"recovery_log_prefix\":\"recovery\",\"labels\":{{\"app\":[\"latest\"]}},\"sources\":[{{\"journal\":\"j0000\"}}]}}"
        )?;
        put(alloc, keys, key.as_str(), value.as_str())?;
    }
    Ok(())
}

/// So many members of a kind.
fn put_members(alloc: Global, keys: &mut KeySpace, kind: &str, count: u32) -> Result<(), NoMemory> {
    for i in 0..count {
        let zone = i % ZONES;
        let key = format!(in alloc; "member/{kind}{i:02}")?;
        let value = format!(in alloc; "{kind} z{zone} {LIMIT}")?;
        put(alloc, keys, key.as_str(), value.as_str())?;
    }
    Ok(())
}

/// Makes the transaction. Answers whether it was made.
fn make(keys: &mut KeySpace, txn: &Txn) -> Result<bool, NoMemory> {
    match keys.txn(slice::from_ref(&txn.compare), slice::from_ref(&txn.write)) {
        Ok(_) => Ok(true),
        Err(_) => Ok(false),
    }
}

/// Makes the transactions of a converge. Answers how many were made.
fn make_all(keys: &mut KeySpace, converged: &Converged) -> Result<u64, NoMemory> {
    let mut made: u64 = 0;
    for txn in converged.txns.as_slice() {
        if make(keys, txn)? {
            made = made.saturating_add(1);
        }
    }
    Ok(made)
}

/// A converge of so many journals of 3 replicas, and a quarter as many shards with a standby, and then 20 more, which
/// change nothing. Answers how many transactions were made.
pub fn converge_all(alloc: Global, count: u32) -> Result<u64, NoMemory> {
    let mut keys = KeySpace::new(alloc);
    put_journals(alloc, &mut keys, count)?;
    put_shards(alloc, &mut keys, count / 4)?;
    put_members(alloc, &mut keys, "broker", BROKERS)?;
    put_members(alloc, &mut keys, "consumer", CONSUMERS)?;
    let mut made: u64 = 0;
    let mut goal = Placement::none(alloc);
    for _ in 0..=TURNS {
        let view = KeyView::of(alloc, &keys)?;
        let converged = converge(alloc, &view, &goal)?;
        made = made.saturating_add(make_all(&mut keys, &converged)?);
        goal = converged.goal;
    }
    Ok(made)
}
