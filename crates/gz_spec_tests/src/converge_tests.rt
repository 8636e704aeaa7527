// What becomes of routes and lists as members come and go, told by short words.

use gz_alloc::Placement;
use gz_converge::{KeyView, Txn, converge};
use gz_keyspace::KeySpace;
use gz_label::{Blob, KeyWrite, Name};
use std::alloc::Global;
use std::slice;
use std::test::Fail;

// The words of a row: `jN` puts the journal x with replication N, `hN` the shard s with N standbys, `d` the same one
// disabled; `+M` and `-M` let a member join and expire, each in a zone of its own, `y` puts the sync key with the
// route's epoch, `c` converges. `=R` asks for the route, and `~L` for the list, a dash where there is none.
fn rows() -> &'static str {
    "j2 c =- +b1 c =b1 +b2 c =b1 y c =b1,b2
j2 +b1 +b2 c =b1,b2 +b3 -b1 c =b2,b3 c =b2,b3
j2 +b1 +b2 +b3 c =b1,b2 j3 c =b1,b2 y c =b1,b2,b3
j3 +b1 +b2 +b3 c j1 c =b1,b2,b3 y c =b1 y c =b1
j1 +b1 c =b1 -b1 c =b1 +b2 c =b2
h1 +c1 +c2 c ~c1,c2 +c3 c ~c1,c2 -c1 c ~c2,c3
h0 c ~- +c1 c ~c1 -c1 c ~ c ~
h1 +c1 +c2 c d c ~ h0 c ~c1
h2 +c1 c ~c1 +c0 +c3 c ~c1,c0,c3"
}

// The key of this word and this name.
fn key_of(alloc: Global, word: &[u8], name: &[u8]) -> Result<Name, Fail> {
    let mut text = Blob::of(alloc, word)?;
    text.append(name)?;
    let key = Name::read(alloc, text.as_slice())?;
    Ok(key)
}

fn put(alloc: Global, keys: &mut KeySpace, key: &[u8], value: &[u8]) -> Result<(), Fail> {
    let write = KeyWrite {
        key: Name::read(alloc, key)?,
        value: Some(Blob::of(alloc, value)?),
    };
    let _revision = keys.txn(&[], slice::from_ref(&write))?;
    Ok(())
}

// The journal x with this replication.
fn put_journal(alloc: Global, keys: &mut KeySpace, replication: &[u8]) -> Result<(), Fail> {
    let mut text = Blob::of(alloc, b"{\"name\":\"x\",\"replication\":")?;
    text.append(replication)?;
    text.append(b"}")?;
    put(alloc, keys, b"journal/x", text.as_slice())?;
    Ok(())
}

// The shard s with so many standbys.
fn put_shard(
    alloc: Global,
    keys: &mut KeySpace,
    standbys: &[u8],
    disable: &[u8],
) -> Result<(), Fail> {
    let mut text = Blob::of(alloc, b"{\"id\":\"s\",\"sources\":[{\"journal\":\"x\"}],")?;
    text.append(b"\"recovery_log_prefix\":\"r\",\"labels\":{\"app\":[\"latest\"]},")?;
    text.append(b"\"hot_standbys\":")?;
    text.append(standbys)?;
    text.append(b",\"disable\":")?;
    text.append(disable)?;
    text.append(b"}")?;
    put(alloc, keys, b"shard/s", text.as_slice())?;
    Ok(())
}

// A broker where the id begins with a b, else a consumer, in a zone of the id's name, with a limit of 4.
fn join(alloc: Global, keys: &mut KeySpace, id: &[u8]) -> Result<(), Fail> {
    let kind = if id.first() == Some(&b'b') {
        b"broker ".as_slice()
    } else {
        b"consumer ".as_slice()
    };
    let mut text = Blob::of(alloc, kind)?;
    text.append(id)?;
    text.append(b" 4")?;
    let key = key_of(alloc, b"member/", id)?;
    let _lease = keys.grant(key, text)?;
    Ok(())
}

// The revision of the change that put the key, or 0.
fn revision_of(keys: &KeySpace, key: &Name) -> u64 {
    match keys.get(key) {
        Some((_, revision)) => revision,
        None => 0,
    }
}

fn leave(alloc: Global, keys: &mut KeySpace, id: &[u8]) -> Result<(), Fail> {
    let key = key_of(alloc, b"member/", id)?;
    let lease = revision_of(keys, &key);
    let _revision = keys.expire(lease)?;
    Ok(())
}

// Puts the sync key with the route's epoch.
fn sync(alloc: Global, keys: &mut KeySpace) -> Result<(), Fail> {
    let route = Name::of(alloc, "route/x")?;
    let epoch = revision_of(keys, &route);
    let text = format!(in alloc; "{epoch}")?;
    put(alloc, keys, b"sync/x", text.as_bytes())?;
    Ok(())
}

fn make(keys: &mut KeySpace, txn: &Txn) -> Result<(), Fail> {
    let _revision = keys.txn(slice::from_ref(&txn.compare), slice::from_ref(&txn.write))?;
    Ok(())
}

// Makes the transactions of a converge, and answers the next goal.
fn converge_once(alloc: Global, keys: &mut KeySpace, goal: &Placement) -> Result<Placement, Fail> {
    let view = KeyView::of(alloc, keys)?;
    let converged = converge(alloc, &view, goal)?;
    for txn in converged.txns.as_slice() {
        make(keys, txn)?;
    }
    Ok(converged.goal)
}

// The value of the key, or a dash.
fn value_of(alloc: Global, keys: &KeySpace, key: &[u8]) -> Result<Blob, Fail> {
    let key = Name::read(alloc, key)?;
    let value = match keys.get(&key) {
        Some((value, _)) => value.copy()?,
        None => Blob::of(alloc, b"-")?,
    };
    Ok(value)
}

// Does what a word says, and answers the next goal. False where something else than what was asked for is there.
fn step(
    alloc: Global,
    keys: &mut KeySpace,
    goal: Placement,
    word: &str,
) -> Result<(Placement, bool), Fail> {
    let Some((letter, rest)) = word.as_bytes().split_first() else {
        return Ok((goal, false));
    };
    match *letter {
        b'j' => put_journal(alloc, keys, rest)?,
        b'h' => put_shard(alloc, keys, rest, b"false")?,
        b'd' => put_shard(alloc, keys, b"1", b"true")?,
        b'+' => join(alloc, keys, rest)?,
        b'-' => leave(alloc, keys, rest)?,
        b'y' => sync(alloc, keys)?,
        b'=' => {
            let route = value_of(alloc, keys, b"route/x")?;
            return Ok((goal, route.as_slice() == rest));
        }
        b'~' => {
            let list = value_of(alloc, keys, b"assign/s")?;
            return Ok((goal, list.as_slice() == rest));
        }
        _ => {
            let next = converge_once(alloc, keys, &goal)?;
            return Ok((next, true));
        }
    }
    Ok((goal, true))
}

#[test]
fn routes_and_lists(rt: HostRuntime) -> Result<(), Fail> {
    let alloc = rt.alloc();
    for row in rows().lines() {
        let mut keys = KeySpace::new(alloc);
        let mut goal = Placement::none(alloc);
        for word in row.split_whitespace() {
            let (next, is_so) = step(alloc, &mut keys, goal, word)?;
            assert!(rt; is_so, "{word} in {row}");
            goal = next;
        }
    }
    Ok(())
}
