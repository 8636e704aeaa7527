// Names of kinds both ways, the number that a trace prints of names, and that a copy finds memory.

use gz_label::{Name, NoMemory};
use gz_wire::{Kind, Msg, Names};
use std::alloc::Global;
use std::test::Fail;

/// Names of fragments of a journal. It has no clause, so that no proof computes a row.
fn store_names(alloc: Global, first: Name, second: Name) -> Result<Msg, NoMemory> {
    let journal = Name::of(alloc, "x")?;
    let mut names = Vec::new(alloc);
    names.push(first)?;
    names.push(second)?;
    Ok(Msg::StoreNames {
        req: 7,
        journal,
        names: Names::from_vec(names),
    })
}

/// The name of a fragment that ends at 31, and a text that is none.
fn one_name_of_two(alloc: Global) -> Result<Msg, NoMemory> {
    let first = Name::of(
        alloc,
        "0000000000000003-000000000000001f-a9993e364706816aba3e25717850c26c9cd0d89d.raw",
    )?;
    let second = Name::of(alloc, "src/a")?;
    store_names(alloc, first, second)
}

#[test]
fn kinds_by_name(rt: HostRuntime) -> Result<(), Fail> {
    for name in ["KsTxn", "Held", "StoreNames"] {
        let kind = Kind::named(name).ok_or("no kind")?;
        assert_eq!(rt; kind.name(), name);
    }
    assert_eq!(rt; Kind::named("held"), None);
    Ok(())
}

#[test]
fn greatest_end_of_names(rt: HostRuntime) -> Result<(), Fail> {
    let msg = one_name_of_two(rt.alloc())?;
    assert_eq!(rt; msg.number(), 31);
    Ok(())
}

#[test]
fn copies_find_memory(rt: HostRuntime) -> Result<(), Fail> {
    let msg = one_name_of_two(rt.alloc())?;
    let copy = msg.copy()?;
    assert_eq!(rt; copy.kind(), Kind::StoreNames);
    Ok(())
}
