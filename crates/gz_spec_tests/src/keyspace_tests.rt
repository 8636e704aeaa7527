// Each answer of the calls, once.

use gz_keyspace::{KeyError, KeySpace, Mirror, read_ids, read_joined, read_sync};
use gz_label::{Blob, Compare, KeyWrite, Name};
use std::test::Fail;

#[test]
fn transactions(rt: HostRuntime) -> Result<(), Fail> {
    let alloc = rt.alloc();
    let mut keys = KeySpace::new(alloc);
    let writes = [KeyWrite {
        key: Name::of(alloc, "a")?,
        value: Some(Blob::of(alloc, b"x")?),
    }];
    let compares = [Compare {
        key: Name::of(alloc, "a")?,
        mod_revision: 0,
    }];
    let revision = keys.txn(&compares, &writes)?;
    assert_eq!(rt; revision, 1);
    let refused = keys.txn(&compares, &writes);
    assert!(rt;
        matches!(
            &refused,
            Err(KeyError::CompareFailed {
                mod_revision: 1,
                ..
            })
        )
    );
    let unchanged = keys.txn(&[], &[])?;
    assert_eq!(rt; unchanged, 1);
    assert_eq!(rt; keys.since(0)?.as_slice().len(), 1);
    Ok(())
}

#[test]
fn leases(rt: HostRuntime) -> Result<(), Fail> {
    let alloc = rt.alloc();
    let mut keys = KeySpace::new(alloc);
    let lease = keys.grant(Name::of(alloc, "b1")?, Blob::new(alloc))?;
    assert_eq!(rt; lease, 1);
    let again = keys.grant(Name::of(alloc, "b1")?, Blob::new(alloc));
    assert!(rt;
        matches!(
            &again,
            Err(KeyError::CompareFailed {
                mod_revision: 1,
                ..
            })
        )
    );
    let revision = keys.expire(1)?;
    assert_eq!(rt; revision, 2);
    let gone = keys.expire(1);
    assert!(rt; matches!(&gone, Err(KeyError::NoLease)));
    Ok(())
}

#[test]
fn mirrors(rt: HostRuntime) -> Result<(), Fail> {
    let alloc = rt.alloc();
    let mut keys = KeySpace::new(alloc);
    for value in 0..4u8 {
        let name = Name::of(alloc, "k")?;
        let lease = keys.grant(name, Blob::of(alloc, &[value])?)?;
        let _ended = keys.expire(lease)?;
    }
    let changes = keys.since(0)?;
    let mut mirror = Mirror::new(alloc);
    for (place, after) in [(0, 1), (1, 2), (3, 2), (0, 2), (2, 3)] {
        if let Some(change) = changes.as_slice().get(place) {
            let answer = mirror.apply(change);
            assert_eq!(rt;
                matches!(&answer, Err(KeyError::Skipped { have: 2, got: 4 })),
                place == 3
            );
            assert_eq!(rt; mirror.revision(), after);
        }
    }
    assert_eq!(rt; Mirror::of(&keys)?.revision(), 8);
    Ok(())
}

#[test]
fn epochs(rt: HostRuntime) -> Result<(), Fail> {
    for (text, number) in [
        (b"0".as_slice(), Some(0)),
        (b"00".as_slice(), None),
        (b"18446744073709551615".as_slice(), Some(u64::MAX)),
        (b"18446744073709551616".as_slice(), None),
    ] {
        assert_eq!(rt; read_sync(text), number);
    }
    Ok(())
}

// Each text, and how many ids it lists.
#[test]
fn lists_of_ids(rt: HostRuntime) -> Result<(), Fail> {
    let alloc = rt.alloc();
    for (text, count) in [
        (b"".as_slice(), Some(0)),
        (b"b1,c_2".as_slice(), Some(2)),
        (b"b1,".as_slice(), None),
        (b"b1,b1".as_slice(), None),
    ] {
        let ids = read_ids(alloc, text)?;
        let found = match &ids {
            Some(ids) => Some(ids.as_slice().len()),
            None => None,
        };
        assert_eq!(rt; found, count);
    }
    Ok(())
}

// Each value of a member's key, and its limit where it is a consumer's.
#[test]
fn members(rt: HostRuntime) -> Result<(), Fail> {
    let alloc = rt.alloc();
    let id = Name::of(alloc, "m1")?;
    for (value, limit) in [
        (b"consumer z1 1024".as_slice(), Some(1024)),
        (b"consumer z1 1025".as_slice(), None),
        (b"consumer z1 04".as_slice(), None),
        (b"consumer z1 4 ".as_slice(), None),
        (b"broker z1 4".as_slice(), None),
    ] {
        let joined = read_joined(alloc, &id, value)?;
        let found = match &joined {
            Some(joined) if joined.consumer => Some(joined.spec.limit),
            _ => None,
        };
        assert_eq!(rt; found, limit);
    }
    Ok(())
}
