// Sums and names from outside, names at their edges, and fragments that overlap.

use gz_fragment::{FragmentError, FragmentName, Index, name_of};
use gz_label::{Blob, NoMemory};
use std::alloc::Global;
use std::test::Fail;

// The text of a content's name; none where it has no name.
fn printed(alloc: Global, begin: u64, content: &[u8]) -> Result<Option<Blob>, NoMemory> {
    match name_of(begin, content) {
        None => Ok(None),
        Some(name) => Ok(Some(name.print(alloc)?)),
    }
}

// The name that a text is, printed again.
fn read_again(alloc: Global, text: &str) -> Result<Option<Blob>, NoMemory> {
    match FragmentName::read(text.as_bytes()) {
        None => Ok(None),
        Some(name) => Ok(Some(name.print(alloc)?)),
    }
}

// The examples of FIPS 180-4, and contents at the last end.
#[test]
fn sums(rt: HostRuntime) -> Result<(), Fail> {
    let alloc = rt.alloc();
    for (begin, content, text) in [
        (
            0,
            "abc",
            "0000000000000000-0000000000000003-a9993e364706816aba3e25717850c26c9cd0d89d.raw",
        ),
        (
            10,
            "abcdbcdecdefdefgefghfghighijhijkijkljklmklmnlmnomnopnopq",
            "000000000000000a-0000000000000042-84983e441c3bd26ebaae4aa1f95129e5e54670f1.raw",
        ),
        (
            (1 << 62) - 3,
            "abc",
            "3ffffffffffffffd-4000000000000000-a9993e364706816aba3e25717850c26c9cd0d89d.raw",
        ),
        ((1 << 62) - 2, "abc", ""),
        (u64::MAX, "abc", ""),
        (0, "", ""),
    ] {
        match printed(alloc, begin, content.as_bytes())? {
            None => assert_eq!(rt; text, ""),
            Some(name) => assert_eq!(rt; name.as_slice(), text.as_bytes()),
        }
    }
    Ok(())
}

// A name is read back as it was; what is no name isn't read.
#[test]
fn names(rt: HostRuntime) -> Result<(), Fail> {
    let alloc = rt.alloc();
    for (text, is_name) in [
        (
            "0000000000000000-4000000000000000-a9993e364706816aba3e25717850c26c9cd0d89d.raw",
            true,
        ),
        (
            "fffffffffffffffe-ffffffffffffffff-0000000000000000000000000000000000000000.raw",
            true,
        ),
        (
            "0000000000000003-0000000000000003-a9993e364706816aba3e25717850c26c9cd0d89d.raw",
            false,
        ),
        (
            "0000000000000004-0000000000000003-a9993e364706816aba3e25717850c26c9cd0d89d.raw",
            false,
        ),
        (
            "0000000000000000-0000000000000003-A9993e364706816aba3e25717850c26c9cd0d89d.raw",
            false,
        ),
        (
            "000000000000000A-0000000000000042-a9993e364706816aba3e25717850c26c9cd0d89d.raw",
            false,
        ),
        (
            "0000000000000000-0000000000000003-a9993e364706816aba3e25717850c26c9cd0d89.raw",
            false,
        ),
        (
            "0000000000000000-0000000000000003-a9993e364706816aba3e25717850c26c9cd0d89g.raw",
            false,
        ),
        (
            "0000000000000000_0000000000000003-a9993e364706816aba3e25717850c26c9cd0d89d.raw",
            false,
        ),
        (
            "0000000000000000-0000000000000003-a9993e364706816aba3e25717850c26c9cd0d89d.gz1",
            false,
        ),
    ] {
        match read_again(alloc, text)? {
            None => assert!(rt; !is_name, "of {text}"),
            Some(name) => {
                assert!(rt; is_name, "of {text}");
                assert_eq!(rt; name.as_slice(), text.as_bytes());
            }
        }
    }
    Ok(())
}

// Adds the bytes from begin to before end of a text.
fn add(
    alloc: Global,
    index: &mut Index,
    begin: usize,
    content: &[u8],
) -> Result<bool, FragmentError> {
    match name_of(begin as u64, content) {
        None => Ok(false),
        Some(name) => {
            index.add(name, Blob::of(alloc, content)?)?;
            Ok(true)
        }
    }
}

// Begin and end of the fragment that covers an offset.
fn span_over(index: &Index, offset: u64) -> Option<(u64, u64)> {
    let name = index.covers(offset)?;
    Some((name.begin(), name.end()))
}

// Fragments that overlap, one of them twice and some in the place of others.
#[test]
fn overlapping(rt: HostRuntime) -> Result<(), Fail> {
    let alloc = rt.alloc();
    let mut index = Index::new(alloc);
    for (begin, content) in [
        (4, "ef"),
        (0, "abc"),
        (9, "j"),
        (2, "cde"),
        (0, "abcde"),
        (4, "ef"),
        (0, "xyz"),
        (3, "def"),
    ] {
        let added = add(alloc, &mut index, begin, content.as_bytes());
        assert!(rt; matches!(added, Ok(true)));
    }
    assert_eq!(rt; index.len(), 7);
    assert_eq!(rt; index.end(), 10);
    for (offset, span) in [
        (0, Some((0, 5))),
        (2, Some((0, 5))),
        (3, Some((3, 6))),
        (4, Some((3, 6))),
        (5, Some((3, 6))),
        (6, None),
        (9, Some((9, 10))),
        (10, None),
        (u64::MAX, None),
    ] {
        assert_eq!(rt; span_over(&index, offset), span, "at {offset}");
    }
    for (place, span) in [
        (0, Some((0, 3))),
        (2, Some((0, 5))),
        (3, Some((2, 5))),
        (6, Some((9, 10))),
        (7, None),
    ] {
        let found = match index.nth(place) {
            None => None,
            Some((name, _)) => Some((name.begin(), name.end())),
        };
        assert_eq!(rt; found, span, "at {place}");
    }
    Ok(())
}

// A name of another content is refused, and nothing changes.
#[test]
fn refusals(rt: HostRuntime) -> Result<(), Fail> {
    let alloc = rt.alloc();
    let mut index = Index::new(alloc);
    let Some(name) = name_of(0, b"abc") else {
        return Err(Fail::from(NoMemory));
    };
    let short = index.add(name, Blob::of(alloc, b"ab")?);
    assert!(rt; matches!(short, Err(FragmentError::BadSpan)));
    let other = index.add(name, Blob::of(alloc, b"abd")?);
    assert!(rt; matches!(other, Err(FragmentError::Differs { .. })));
    assert_eq!(rt; index.len(), 0);
    let text = format!(in alloc; "{}", FragmentError::BadSpan)?;
    assert_eq!(rt;
        text.as_str(),
        "the content hasn't the length that its name gives"
    );
    Ok(())
}
