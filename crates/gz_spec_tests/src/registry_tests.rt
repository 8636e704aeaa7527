// Each answer of the calls, once, and what the key space has then.

use gz_keyspace::{Joined, read_joined};
use gz_label::{Blob, Compare, KeyWrite, Name};
use gz_registry::{Registry, RegistryError};
use gz_spec::{Specs, read_part};
use std::alloc::Global;
use std::test::Fail;

// A journal, and a consumer that is before its broker in the order of ids.
const START: &str =
    "{\"journals\":[{\"name\":\"b\"}],\"brokers\":[{\"id\":\"m2\",\"zone\":\"z\",\"limit\":4}],\"consumers\":[{\"id\":\"m1\",\"zone\":\"z\",\"limit\":2}]}";

// Another journal, and the first one as it was.
const MORE: &str = "{\"journals\":[{\"name\":\"c\"},{\"name\":\"b\"}]}";

// What the text says. It has no clauses, so that no proof computes that.
fn specs_of(alloc: Global, text: &str) -> Result<Specs, Fail> {
    let specs = read_part(alloc, text.as_bytes())?;
    Ok(specs)
}

fn begun(alloc: Global) -> Result<Registry, Fail> {
    let specs = specs_of(alloc, START)?;
    let registry = Registry::start(alloc, &specs)?;
    Ok(registry)
}

// A broker of this id.
fn broker(alloc: Global, id: &[u8]) -> Result<Joined, Fail> {
    let id = Name::read(alloc, id)?;
    let Some(joined) = read_joined(alloc, &id, b"broker z 1")? else {
        return Err(Fail::new("not the id of a member"));
    };
    Ok(joined)
}

// The revision of the change that put the key, and 0 where it is absent.
fn revision_of(alloc: Global, registry: &Registry, key: &str) -> Result<u64, Fail> {
    match registry.get(&Name::read(alloc, key.as_bytes())?) {
        None => Ok(0),
        Some((_, revision)) => Ok(revision),
    }
}

// The calls below have no clauses, so that no proof carries what one made of a registry to the next.

fn put(alloc: Global, registry: &mut Registry, text: &str) -> Result<u64, Fail> {
    let part = specs_of(alloc, text)?;
    Ok(registry.put(&part)?)
}

// The revision at which the broker of this id joined, or None where there are too many.
fn join(alloc: Global, registry: &mut Registry, id: &[u8]) -> Result<Option<u64>, Fail> {
    let joined = broker(alloc, id)?;
    if registry.was_member(&joined.spec.id) {
        return Err(Fail::new("a member"));
    }
    match registry.join(&joined) {
        Ok(revision) => Ok(Some(revision)),
        Err(RegistryError::MembersFull) => Ok(None),
        Err(_) => Err(Fail::new("no answer of a join")),
    }
}

// The revision at which the lease of this member ended, or None where it has none.
fn expire(alloc: Global, registry: &mut Registry, id: &[u8]) -> Result<Option<u64>, Fail> {
    let id = Name::read(alloc, id)?;
    match registry.expire(&id) {
        Ok(revision) => Ok(Some(revision)),
        Err(RegistryError::NoMember) => Ok(None),
        Err(_) => Err(Fail::new("no answer of an expiry")),
    }
}

// Whether the route of the journal `b` was put, where its key has this revision.
fn try_route(alloc: Global, registry: &mut Registry, revision: u64) -> Result<bool, Fail> {
    let compare = Compare {
        key: Name::of(alloc, "route/b")?,
        mod_revision: revision,
    };
    let write = KeyWrite {
        key: Name::of(alloc, "route/b")?,
        value: Some(Blob::of(alloc, b"m2")?),
    };
    Ok(registry.try_write(&compare, &write)?)
}

fn was_member(alloc: Global, registry: &Registry, id: &[u8]) -> Result<bool, Fail> {
    let id = Name::read(alloc, id)?;
    Ok(registry.was_member(&id))
}

#[test]
fn starts(rt: HostRuntime) -> Result<(), Fail> {
    let alloc = rt.alloc();
    let registry = begun(alloc)?;
    assert_eq!(rt; registry.revision(), 3);
    assert_eq!(rt; revision_of(alloc, &registry, "journal/b")?, 1);
    assert_eq!(rt; revision_of(alloc, &registry, "member/m2")?, 2);
    assert_eq!(rt; revision_of(alloc, &registry, "member/m1")?, 3);
    Ok(())
}

#[test]
fn puts(rt: HostRuntime) -> Result<(), Fail> {
    let alloc = rt.alloc();
    let mut registry = begun(alloc)?;
    assert_eq!(rt; put(alloc, &mut registry, MORE)?, 4);
    assert_eq!(rt; revision_of(alloc, &registry, "journal/b")?, 4);
    assert_eq!(rt; revision_of(alloc, &registry, "journal/c")?, 4);
    Ok(())
}

#[test]
fn expires(rt: HostRuntime) -> Result<(), Fail> {
    let alloc = rt.alloc();
    let mut registry = begun(alloc)?;
    assert_eq!(rt; expire(alloc, &mut registry, b"m1")?, Some(4));
    assert!(rt; was_member(alloc, &registry, b"m1")?);
    assert_eq!(rt; revision_of(alloc, &registry, "member/m1")?, 0);
    assert_eq!(rt; expire(alloc, &mut registry, b"m1")?, None);
    Ok(())
}

// Two start, and 62 more may join.
#[test]
fn joins(rt: HostRuntime) -> Result<(), Fail> {
    let alloc = rt.alloc();
    let mut registry = begun(alloc)?;
    for number in 0..63u8 {
        let id = [b'n', b'0' + number / 10, b'0' + number % 10];
        let revision = join(alloc, &mut registry, &id)?;
        assert_eq!(rt; revision.is_none(), number == 62);
    }
    assert_eq!(rt; registry.revision(), 65);
    assert_eq!(rt; revision_of(alloc, &registry, "member/n00")?, 4);
    Ok(())
}

#[test]
fn tries(rt: HostRuntime) -> Result<(), Fail> {
    let alloc = rt.alloc();
    let mut registry = begun(alloc)?;
    for (seen, made, revision) in [(3, false, 0), (0, true, 4), (0, false, 4), (4, true, 5)] {
        assert_eq!(rt; try_route(alloc, &mut registry, seen)?, made, "of {seen}");
        assert_eq!(rt;
            revision_of(alloc, &registry, "route/b")?,
            revision,
            "of {seen}"
        );
        assert_eq!(rt; registry.keys().revision(), registry.revision());
    }
    assert!(rt; was_member(alloc, &registry, b"m2")?);
    Ok(())
}
