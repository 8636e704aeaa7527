// What becomes of a spool, and that each call finds memory.

use gz_label::{Attempt, Blob, Entries, Entry, Image, LabelSet, Name};
use gz_spool::{Spool, SpoolError};
use std::alloc::Global;
use std::test::Fail;

fn entry(alloc: Global, bytes: &[u8], registers: &[u8]) -> Result<Entry, Fail> {
    Ok(Entry {
        attempt: Attempt {
            node: Name::of(alloc, "k1")?,
            req: 1,
        },
        bytes: Blob::of(alloc, bytes)?,
        registers: LabelSet::read(alloc, registers).ok().ok_or("a set")?,
    })
}

// Begin, head and end.
fn offsets(spool: &Spool) -> (u64, u64, u64) {
    (spool.begin(), spool.head(), spool.end())
}

// Entries are put at the end alone, the head is raised past it, and the first entry goes.
#[test]
fn holds_entries(rt: HostRuntime) -> Result<(), Fail> {
    let alloc = rt.alloc();
    let mut spool = Spool::new(alloc, 4);
    assert_eq!(rt; offsets(&spool), (4, 4, 4));
    spool.reserve(4)?;
    for (offset, bytes, answer) in [
        (4, b"abc".as_slice(), Ok(())),
        (8, b"de".as_slice(), Err(SpoolError::Gap { end: 7 })),
        (6, b"de".as_slice(), Err(SpoolError::Old { end: 7 })),
        (7, b"de".as_slice(), Ok(())),
    ] {
        let entry = entry(alloc, bytes, b"a=1")?;
        assert!(rt; spool.spare() > 0 && spool.end() < 100 && entry.bytes.len() < 100);
        assert_eq!(rt; spool.extend(offset, entry), answer);
    }
    assert_eq!(rt; spool.registers().len(), 1);
    spool.raise_head(20);
    assert_eq!(rt; offsets(&spool), (4, 9, 9));
    assert_eq!(rt; (spool.begin_after(6), spool.begin_after(7)), (4, 7));
    assert_eq!(rt; spool.trim_to(6), false);
    assert_eq!(rt; spool.trim_to(7), true);
    assert_eq!(rt; spool.len(), 1);
    assert_eq!(rt; spool.entry(0).bytes.len(), 2);
    assert_eq!(rt; offsets(&spool), (7, 9, 9));
    let last = entry(alloc, b"f", b"")?;
    assert!(rt; spool.end() < 100 && last.bytes.len() < 100);
    spool.push(last)?;
    assert_eq!(rt; offsets(&spool), (7, 9, 10));
    Ok(())
}

// An image is adopted as it is, and one whose head is above its end isn't.
#[test]
fn adopts_images(rt: HostRuntime) -> Result<(), Fail> {
    let alloc = rt.alloc();
    let mut entries = Vec::new(alloc);
    entries.push(entry(alloc, b"abc", b"")?)?;
    let image = Image {
        begin: 1,
        base: LabelSet::new(alloc),
        entries: Entries::of(entries),
        head: 2,
    };
    let spool = Spool::adopt(image).ok_or("a spool")?;
    assert_eq!(rt; offsets(&spool), (1, 2, 4));
    let mut image = spool.image()?;
    image.head = 5;
    assert!(rt; Spool::adopt(image).is_none());
    Ok(())
}
