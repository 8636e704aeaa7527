// Spellings by hand, their prefixes, other tags, and hostile bytes.

use gz_label::Name;
use gz_spelling::{WireError, decode, encode};
use gz_wire::Msg;
use std::alloc::Global;
use std::test::Fail;

// `b1` asks for the changes after revision 258: the body's length, the name, tag 4, two numbers.
const SINCE: [u8; 25] = [
    21, 0, 0, 0, 0, 2, 98, 49, 4, 0, 0, 0, 0, 0, 0, 0, 2, 0, 0, 0, 0, 0, 0, 1, 2,
];

// `b1` promises epoch 3 of `x`: the body's length, the name, tag 9, a text and a number.
const PROMISE: [u8; 20] = [
    16, 0, 0, 0, 0, 2, 98, 49, 9, 0, 1, 120, 0, 0, 0, 0, 0, 0, 0, 3,
];

fn name(alloc: Global, text: &[u8]) -> Result<Name, Fail> {
    Ok(Name::read(alloc, text).ok().ok_or("no name")?)
}

/// Why the bytes are refused. It has no clause, so that no proof computes a row.
fn refusal(alloc: Global, bytes: &[u8]) -> Option<WireError> {
    match decode(alloc, bytes) {
        Ok(_) => None,
        Err(e) => Some(e),
    }
}

/// The spelling of a message. It has no clause either.
fn spelling_of(alloc: Global, peer: &Name, msg: &Msg) -> Result<Vec<u8>, Fail> {
    let spelling = encode(alloc, peer, msg).ok().ok_or("not written")?;
    Ok(spelling.into_vec())
}

/// The message of the bytes, spelled again.
fn spelled_again(alloc: Global, bytes: &[u8]) -> Result<Vec<u8>, Fail> {
    let read = decode(alloc, bytes).ok().ok_or("not read")?;
    spelling_of(alloc, &read.peer, &read.msg)
}

fn since(alloc: Global) -> Result<Vec<u8>, Fail> {
    let peer = name(alloc, b"b1")?;
    let msg = Msg::KsSince { req: 2, after: 258 };
    spelling_of(alloc, &peer, &msg)
}

fn promise(alloc: Global) -> Result<Vec<u8>, Fail> {
    let peer = name(alloc, b"b1")?;
    let journal = name(alloc, b"x")?;
    let msg = Msg::Promise { journal, epoch: 3 };
    spelling_of(alloc, &peer, &msg)
}

#[test]
fn request_written_by_hand(rt: HostRuntime) -> Result<(), Fail> {
    let bytes = since(rt.alloc())?;
    assert_eq!(rt; bytes.as_slice(), SINCE.as_slice());
    Ok(())
}

#[test]
fn promise_written_by_hand(rt: HostRuntime) -> Result<(), Fail> {
    let bytes = promise(rt.alloc())?;
    assert_eq!(rt; bytes.as_slice(), PROMISE.as_slice());
    Ok(())
}

#[test]
fn read_again(rt: HostRuntime) -> Result<(), Fail> {
    let alloc = rt.alloc();
    for bytes in [SINCE.as_slice(), PROMISE.as_slice()] {
        let again = spelled_again(alloc, bytes)?;
        assert_eq!(rt; again.as_slice(), bytes);
        for end in 0..bytes.len() {
            assert_eq!(rt; refusal(alloc, &bytes[..end]), Some(WireError::NeedMore));
        }
    }
    Ok(())
}

#[test]
fn hostile_bytes(rt: HostRuntime) -> Result<(), Fail> {
    let alloc = rt.alloc();
    // a tag that is in no row; the body ends behind the name; the name isn't UTF-8
    let no_tag = [5, 0, 0, 0, 0, 2, 98, 49, 27];
    let ends = [4, 0, 0, 0, 0, 2, 98, 49];
    let no_text = [4, 0, 0, 0, 0, 2, 0xc3, 0x28];
    // a length above the limit; names whose count says 2 ^ 32 - 1, with ten bytes behind it
    let long = [1, 0, 0, 8];
    let many = [
        30, 0, 0, 0, 0, 2, 98, 49, 26, 0, 0, 0, 0, 0, 0, 0, 1, 0, 1, 120, 255, 255, 255, 255, 0, 1,
        120, 0, 1, 121, 0, 1, 122, 0,
    ];
    let rows = [
        (no_tag.as_slice(), WireError::BadTag { tag: 27 }),
        (ends.as_slice(), WireError::BadField { tag: 0, field: 1 }),
        (no_text.as_slice(), WireError::BadField { tag: 0, field: 0 }),
        (long.as_slice(), WireError::TooLong),
        (many.as_slice(), WireError::BadField { tag: 26, field: 3 }),
    ];
    for (bytes, want) in rows {
        assert_eq!(rt; refusal(alloc, bytes), Some(want));
    }
    Ok(())
}
