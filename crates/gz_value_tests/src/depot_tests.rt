// Each message of the store once, from a node and from a client.

use gz_depot::Depot;
use gz_label::{Blob, Name, NoMemory};
use gz_wire::{Msg, Sends};
use std::alloc::Global;
use std::test::Fail;

// What the store sends for a put of these bytes.
fn put(
    alloc: Global,
    depot: &mut Depot,
    client: bool,
    begin: u64,
    end: u64,
    content: &str,
) -> Result<Sends, NoMemory> {
    let msg = Msg::StorePut {
        req: 1,
        journal: Name::of(alloc, "x")?,
        begin,
        end,
        content: Blob::of(alloc, content.as_bytes())?,
    };
    depot.step(&Name::of(alloc, "b1")?, client, msg)
}

// The status and the bytes that the store answers to a get.
fn get(alloc: Global, depot: &mut Depot, offset: u64) -> Result<Option<(u64, Blob)>, Fail> {
    let msg = Msg::StoreGet {
        req: 2,
        journal: Name::of(alloc, "x")?,
        offset,
    };
    let sends = depot.step(&Name::of(alloc, "b1")?, false, msg)?;
    match sends.as_slice().first() {
        Some(send) => match &send.msg {
            Msg::StoreGot {
                status,
                content,
                ..
            } => Ok(Some((*status, content.copy()?))),
            _ => Ok(None),
        },
        None => Ok(None),
    }
}

// How many names the store lists for a client, and to whom.
fn list(alloc: Global, depot: &mut Depot, client: &str) -> Result<Option<(usize, bool)>, Fail> {
    let msg = Msg::StoreList {
        req: 3,
        journal: Name::of(alloc, "x")?,
    };
    let from = Name::read(alloc, client.as_bytes())?;
    let sends = depot.step(&from, true, msg)?;
    match sends.as_slice().first() {
        Some(send) => match &send.msg {
            Msg::StoreNames { names, .. } => {
                Ok(Some((names.as_slice().len(), send.to.as_str() == client)))
            }
            _ => Ok(None),
        },
        None => Ok(None),
    }
}

// How many messages the store sends for a put.
fn count_of(
    alloc: Global,
    depot: &mut Depot,
    client: bool,
    span: (u64, u64),
    content: &str,
) -> Result<usize, Fail> {
    let sends = put(alloc, depot, client, span.0, span.1, content)?;
    Ok(sends.as_slice().len())
}

// The store with three fragments of `abcdef`, of which one is put twice.
fn filled(alloc: Global) -> Result<Depot, Fail> {
    let mut depot = Depot::new(alloc);
    let _first = count_of(alloc, &mut depot, false, (0, 3), "abc")?;
    let _second = count_of(alloc, &mut depot, false, (2, 6), "cdef")?;
    let _again = count_of(alloc, &mut depot, false, (0, 3), "abc")?;
    Ok(depot)
}

#[test]
fn puts(rt: HostRuntime) -> Result<(), Fail> {
    let alloc = rt.alloc();
    let mut depot = filled(alloc)?;
    assert_eq!(rt; count_of(alloc, &mut depot, false, (0, 3), "abc")?, 1);
    assert_eq!(rt; count_of(alloc, &mut depot, true, (6, 7), "g")?, 0);
    assert_eq!(rt; count_of(alloc, &mut depot, false, (6, 8), "g")?, 0);
    assert_eq!(rt; count_of(alloc, &mut depot, false, (6, 6), "")?, 0);
    Ok(())
}

#[test]
fn gets(rt: HostRuntime) -> Result<(), Fail> {
    let alloc = rt.alloc();
    let mut depot = filled(alloc)?;
    for (offset, status, content) in [
        (0, 0, b"abc".as_slice()),
        (2, 0, b"cdef"),
        (5, 0, b"f"),
        (6, 1, b""),
    ] {
        let Some((got, bytes)) = get(alloc, &mut depot, offset)? else {
            return Err(Fail::new("no answer of a get"));
        };
        assert_eq!(rt; got, status, "at {offset}");
        assert_eq!(rt; bytes.as_slice(), content, "at {offset}");
    }
    Ok(())
}

#[test]
fn lists(rt: HostRuntime) -> Result<(), Fail> {
    let alloc = rt.alloc();
    let mut depot = filled(alloc)?;
    assert_eq!(rt; list(alloc, &mut depot, "k1")?, Some((2, true)));
    Ok(())
}
