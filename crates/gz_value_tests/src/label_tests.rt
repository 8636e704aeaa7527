// Rows from outside: what is a name, and where a text that is none goes wrong.

use gz_label::{
    Attempt, Blob, Change, Changes, Compare, Entries, Entry, Image, KeyWrite, LabelError, LabelSet,
    Name, NoMemory, Selector, Writes, is_label_name, is_label_value,
};
use std::cmp::Ordering;
use std::test::Fail;

// Each text is so many times the letter a, and then a tail. The place is that of its bad byte.
#[test]
fn names(rt: HostRuntime) -> Result<(), Fail> {
    let alloc = rt.alloc();
    for (count, tail, place) in [
        (0, b"".as_slice(), None),
        (1024, b"".as_slice(), None),
        (1025, b"".as_slice(), Some(1024)),
        (1022, b"\xc3\xa9".as_slice(), None),
        (1023, b"\xc3\xa9".as_slice(), Some(1024)),
        (0, b"\xff".as_slice(), Some(0)),
        (3, b"\xffbc".as_slice(), Some(3)),
        (3, b"\xc3".as_slice(), Some(3)),
        (1023, b"\xff".as_slice(), Some(1023)),
        (2000, b"\xff".as_slice(), Some(1024)),
    ] {
        let mut text = Blob::from_vec(vec![in alloc; b'a'; count]?);
        text.append(tail)?;
        match Name::read(alloc, text.as_slice()) {
            Ok(name) => {
                assert_eq!(rt; place, None, "of {count} and {tail:?}");
                assert_eq!(rt; name.as_slice(), text.as_slice());
            }
            Err(LabelError::BadName { at }) => {
                assert_eq!(rt; place, Some(at), "of {count} and {tail:?}")
            }
            Err(LabelError::TooMany) => assert!(rt; false),
            Err(LabelError::NoMemory) => return Err(Fail::from(NoMemory)),
        }
    }
    let name = Name::of(alloc, "acme/b")?;
    let less = Name::of(alloc, "acme/a/long")?;
    assert_eq!(rt; name.copy()?, name);
    assert_eq!(rt; name.as_str(), "acme/b");
    assert_ne!(rt; name, less);
    assert_eq!(rt; less.cmp(&name), Ordering::Less);
    assert_eq!(rt; less.partial_cmp(&name), Some(Ordering::Less));
    let text = format!(in alloc; "{NoMemory}")?;
    assert_eq!(rt; text.as_str(), "out of memory");
    Ok(())
}

#[test]
fn bytes(rt: HostRuntime) -> Result<(), Fail> {
    let alloc = rt.alloc();
    let mut blob = Blob::new(alloc);
    assert!(rt; blob.is_empty());
    blob.append(b"abc")?;
    blob.append(b"de")?;
    assert_eq!(rt; blob.as_slice(), b"abcde".as_slice());
    let copied = blob.copy()?;
    blob.truncate(9);
    assert_eq!(rt; blob.len(), 5);
    blob.truncate(2);
    assert!(rt; !blob.is_empty());
    assert_eq!(rt; blob.into_vec().as_slice(), b"ab".as_slice());
    assert_eq!(rt; copied.as_slice(), b"abcde".as_slice());
    assert_eq!(rt; Blob::of(alloc, b"fg")?.as_slice(), b"fg".as_slice());
    Ok(())
}

// A set of labels is printed in order, and changes.
#[test]
fn label_sets(rt: HostRuntime) -> Result<(), Fail> {
    let alloc = rt.alloc();
    let set = LabelSet::read(alloc, b"b=2,a=1,b=2").ok().ok_or("a set")?;
    assert_eq!(rt; set.print()?.as_slice(), b"a=1,b=2".as_slice());
    assert_eq!(rt; set.len(), 2);
    assert_eq!(rt; set.labels_named(b"b").len(), 1);
    assert_eq!(rt; set.labels_named(b"ab").len(), 0);
    let take = LabelSet::read(alloc, b"a=").ok().ok_or("a set")?;
    let add = LabelSet::read(alloc, b"c=3").ok().ok_or("a set")?;
    let after = set.apply(&take, &add).ok().ok_or("a set")?;
    assert_eq!(rt; after.print()?.as_slice(), b"b=2,c=3".as_slice());
    assert_eq!(rt; set.copy()?.print()?.as_slice(), b"a=1,b=2".as_slice());
    assert_eq!(rt; LabelSet::new(alloc).print()?.as_slice(), b"".as_slice());
    for (text, holds) in [
        (b"".as_slice(), true),
        (b"a=1,b".as_slice(), true),
        (b"a=2".as_slice(), false),
        (b"a!=2,c!=1".as_slice(), true),
        (b"a!=1".as_slice(), false),
        (b"!c".as_slice(), true),
        (b"!a".as_slice(), false),
        (b"c".as_slice(), false),
    ] {
        let selector = Selector::read(alloc, text).ok().ok_or("a selector")?;
        assert_eq!(rt; selector.matches(&set), holds, "of {text:?}");
        assert_eq!(rt; selector.copy()?.matches(&set), holds);
    }
    assert!(rt; Selector::new(alloc).matches(&set));
    Ok(())
}

fn place(e: LabelError) -> Option<usize> {
    match e {
        LabelError::BadName { at } => Some(at),
        LabelError::TooMany | LabelError::NoMemory => None,
    }
}

// Where each text goes wrong, as a set and as a selector.
#[test]
fn bad_items(rt: HostRuntime) -> Result<(), Fail> {
    let alloc = rt.alloc();
    for (text, as_set, as_selector) in [
        (b"a=1,b=2".as_slice(), None, None),
        (b"a".as_slice(), Some(0), None),
        (b"a=1,".as_slice(), Some(4), Some(4)),
        (b",a=1".as_slice(), Some(0), Some(0)),
        (b"a=1,b!=2".as_slice(), Some(4), None),
        (b"a=1,bb=2,c=d=e".as_slice(), Some(9), Some(9)),
        (b"a=1,!!b".as_slice(), Some(4), Some(4)),
        (b"a=1 ,b=2".as_slice(), Some(0), Some(0)),
        (b"=1".as_slice(), Some(0), Some(0)),
    ] {
        let set = LabelSet::read(alloc, text).err().and_then(place);
        assert_eq!(rt; set, as_set, "of {text:?}");
        let selector = Selector::read(alloc, text).err().and_then(place);
        assert_eq!(rt; selector, as_selector, "of {text:?}");
    }
    Ok(())
}

// The numbers that are the greatest, and one past them.
#[test]
fn limits(rt: HostRuntime) -> Result<(), Fail> {
    let alloc = rt.alloc();
    let mut text = Blob::new(alloc);
    for i in 0..65 {
        let item = format!(in alloc; "n{i}=v,")?;
        text.append(item.as_bytes())?;
    }
    // without the comma that is last, and without the last item and its comma
    for (len, fits) in [
        (text.len().saturating_sub(1), false),
        (text.len().saturating_sub(7), true),
    ] {
        text.truncate(len);
        assert_eq!(rt; LabelSet::read(alloc, text.as_slice()).is_ok(), fits);
        assert_eq!(rt; Selector::read(alloc, text.as_slice()).is_ok(), fits);
    }
    for (count, is_name, is_value) in [
        (0, false, true),
        (64, true, true),
        (65, false, true),
        (255, false, true),
        (256, false, false),
    ] {
        let text = vec![in alloc; b'a'; count]?;
        assert_eq!(rt; is_label_name(text.as_slice()), is_name, "of {count}");
        assert_eq!(rt; is_label_value(text.as_slice()), is_value, "of {count}");
    }
    Ok(())
}

#[test]
fn entries(rt: HostRuntime) -> Result<(), Fail> {
    let alloc = rt.alloc();
    let entry = Entry {
        attempt: Attempt {
            node: Name::of(alloc, "k1")?,
            req: 7,
        },
        bytes: Blob::of(alloc, b"abc")?,
        registers: LabelSet::read(alloc, b"a=1").ok().ok_or("a set")?,
    };
    let image = Image {
        begin: 5,
        base: LabelSet::new(alloc),
        entries: Entries::of(vec![in alloc; entry]?),
        head: 8,
    };
    let copied = image.copy()?.entries.copy()?;
    for entry in copied.as_slice() {
        assert_eq!(rt; entry.attempt.req, 7);
        assert_eq!(rt; entry.bytes.as_slice(), b"abc".as_slice());
        assert_eq!(rt; entry.registers.len(), 1);
    }
    assert_eq!(rt; copied.into_vec().len(), 1);
    Ok(())
}

#[test]
fn changes(rt: HostRuntime) -> Result<(), Fail> {
    let alloc = rt.alloc();
    let mut writes = Vec::new(alloc);
    for value in [Some(b"v".as_slice()), None] {
        let value = match value {
            None => None,
            Some(bytes) => Some(Blob::of(alloc, bytes)?),
        };
        writes.push(KeyWrite {
            key: Name::of(alloc, "k")?,
            value,
        })?;
    }
    let mut changes = Vec::new(alloc);
    changes.push(Change {
        revision: 7,
        writes: Writes::from_vec(writes),
    })?;
    let copied = Changes::from_vec(changes).copy()?;
    for change in copied.as_slice() {
        assert_eq!(rt; change.revision, 7);
        assert_eq!(rt; change.writes.as_slice().len(), 2);
    }
    let texts = format!(in alloc; "{copied:?}")?;
    assert!(rt; !texts.is_empty());
    assert_eq!(rt; copied.into_vec().len(), 1);
    let compare = Compare {
        key: Name::of(alloc, "k")?,
        mod_revision: 3,
    };
    assert_eq!(rt; compare.copy()?.mod_revision, 3);
    assert_eq!(rt;
        Writes::from_vec(Vec::new(alloc)).copy()?.into_vec().len(),
        0
    );
    Ok(())
}
