// Rows from outside: what becomes of appends, and what is read.

use gz_journal::{JournalState, Landed, Request};
use gz_label::{Attempt, Blob, LabelSet, Name, Selector};
use std::alloc::Global;
use std::test::Fail;

fn request(
    alloc: Global,
    offset: Option<u64>,
    selector: &[u8],
    take: &[u8],
    add: &[u8],
    content: &[u8],
) -> Result<Request, Fail> {
    Ok(Request {
        attempt: Attempt {
            node: Name::of(alloc, "k1")?,
            req: 1,
        },
        offset,
        selector: Selector::read(alloc, selector).ok().ok_or("a selector")?,
        take: LabelSet::read(alloc, take).ok().ok_or("a set")?,
        add: LabelSet::read(alloc, add).ok().ok_or("a set")?,
        content: Blob::of(alloc, content)?,
    })
}

// What is answered, as a word and a number.
fn code_of(landed: &Landed) -> (u8, u64) {
    match landed {
        Landed::Landed { end, .. } => (b'l', *end),
        Landed::WrongOffset { head } => (b'w', *head),
        Landed::RegisterMismatch { registers } => (b'r', registers.len() as u64),
        Landed::TooLarge { limit } => (b't', *limit),
    }
}

// Each request, its answer, and the registers behind it.
#[test]
fn appends(rt: HostRuntime) -> Result<(), Fail> {
    let alloc = rt.alloc();
    let mut journal = JournalState::new(alloc);
    for (offset, selector, take, add, content, answer, registers) in [
        (
            None,
            b"".as_slice(),
            b"".as_slice(),
            b"a=1".as_slice(),
            b"abc".as_slice(),
            (b'l', 3),
            b"a=1".as_slice(),
        ),
        (
            Some(2),
            b"b".as_slice(),
            b"".as_slice(),
            b"".as_slice(),
            b"x".as_slice(),
            (b'w', 3),
            b"a=1".as_slice(),
        ),
        (
            Some(3),
            b"b".as_slice(),
            b"".as_slice(),
            b"b=1".as_slice(),
            b"x".as_slice(),
            (b'r', 1),
            b"a=1".as_slice(),
        ),
        (
            Some(3),
            b"a=1".as_slice(),
            b"".as_slice(),
            b"c=1".as_slice(),
            b"".as_slice(),
            (b'l', 3),
            b"a=1".as_slice(),
        ),
        (
            Some(3),
            b"a=1,!b".as_slice(),
            b"a=".as_slice(),
            b"b=1".as_slice(),
            b"de".as_slice(),
            (b'l', 5),
            b"b=1".as_slice(),
        ),
    ] {
        let request = request(alloc, offset, selector, take, add, content)?;
        let landed = journal.land(&request.copy()?)?;
        assert_eq!(rt; code_of(&landed), answer);
        assert_eq!(rt; journal.registers().print()?.as_slice(), registers);
    }
    assert_eq!(rt; journal.end(), 5);
    for (offset, limit, text) in [
        (0, 9, b"abcde".as_slice()),
        (0, 0, b"".as_slice()),
        (1, 1, b"b".as_slice()),
        (2, 2, b"cd".as_slice()),
        (3, 9, b"de".as_slice()),
        (4, 1, b"e".as_slice()),
        (5, 1, b"".as_slice()),
        (9, 9, b"".as_slice()),
    ] {
        assert_eq!(rt;
            journal.read_at(offset, limit)?.as_slice(),
            text,
            "at {offset} of {limit}"
        );
    }
    Ok(())
}

// What is appended at the end lands there, whatever the registers are, and they stay.
#[test]
fn appends_at_the_end(rt: HostRuntime) -> Result<(), Fail> {
    let alloc = rt.alloc();
    let mut journal = JournalState::new(alloc);
    let first = request(alloc, None, b"", b"", b"a=1", b"abc")?;
    let _first = journal.land(&first)?;
    for (content, end) in [(b"".as_slice(), 3), (b"de".as_slice(), 5)] {
        let attempt = Attempt {
            node: Name::of(alloc, "k1")?,
            req: 2,
        };
        let landed = journal.append(attempt, Blob::of(alloc, content)?)?;
        assert!(rt; landed.is_landed());
        assert_eq!(rt; code_of(&landed), (b'l', end));
        assert_eq!(rt; journal.registers().print()?.as_slice(), b"a=1".as_slice());
    }
    assert_eq!(rt; journal.read_at(0, 9)?.as_slice(), b"abcde".as_slice());
    Ok(())
}

// An end of 2^62 is the greatest.
#[test]
fn ends(rt: HostRuntime) -> Result<(), Fail> {
    let alloc = rt.alloc();
    let request = request(alloc, None, b"", b"", b"", b"abc")?;
    let none = LabelSet::new(alloc);
    for (end, answer) in [
        ((1 << 62) - 3, (b'l', 1 << 62)),
        ((1 << 62) - 2, (b't', 1 << 62)),
    ] {
        let judged = gz_journal::judge(end, &none, &request)?;
        assert_eq!(rt; code_of(&judged.landed), answer);
        assert_eq!(rt; judged.after.len(), 0);
    }
    Ok(())
}
