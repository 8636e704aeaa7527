// Fields by hand, and hostile ones.

use bytes::BytesMut;
use gz_codec::{
    FieldError, changes_at, compares_at, end_at, image_at, names_at, optional_at, put_changes,
    put_compares, put_image, put_names, put_optional, put_text, put_writes, writes_at,
};
use gz_label::Name;
use std::alloc::Global;
use std::test::Fail;

// Two names: their count, and `x` and the empty one with their lengths.
const NAMES: [u8; 9] = [0, 0, 0, 2, 0, 1, 120, 0, 0];

// An image: begin 258, the label `k` with the value `v`, an entry of `a` with two bytes, head 260.
const IMAGE: [u8; 47] = [
    0, 0, 0, 0, 0, 0, 1, 2, 0, 1, 0, 1, 107, 0, 1, 118, 0, 0, 0, 1, 0, 1, 97, 0, 0, 0, 0, 0, 0, 0,
    7, 0, 0, 0, 2, 9, 8, 0, 0, 0, 0, 0, 0, 0, 0, 1, 4,
];

// `k` is deleted and `l` set to a byte; a compare of `k` with 3; a change with no writes; the number 4.
const KEYS: [u8; 57] = [
    0, 0, 0, 2, 0, 1, 107, 0, 0, 1, 108, 1, 0, 0, 0, 1, 5, 0, 0, 0, 1, 0, 1, 107, 0, 0, 0, 0, 0, 0,
    0, 3, 0, 0, 0, 1, 0, 0, 0, 0, 0, 0, 0, 6, 0, 0, 0, 0, 1, 0, 0, 0, 0, 0, 0, 0, 4,
];

fn name(alloc: Global, text: &[u8]) -> Result<Name, Fail> {
    Ok(Name::read(alloc, text).ok().ok_or("no name")?)
}

/// The names that the bytes begin with, written again, or why there are none. It has no clause, so that no proof
/// computes a row.
fn names_again(alloc: Global, bytes: &[u8]) -> Result<Vec<u8>, FieldError> {
    let (names, _rest) = names_at(alloc, 1, bytes)?;
    let mut out = BytesMut::new(alloc);
    put_names(&mut out, names.as_slice())?;
    let written = out.into_vec()?;
    Ok(written)
}

fn image_again(alloc: Global, bytes: &[u8]) -> Result<Vec<u8>, FieldError> {
    let (image, rest) = image_at(alloc, 1, bytes)?;
    end_at(2, rest)?;
    let mut out = BytesMut::new(alloc);
    put_image(&mut out, &image)?;
    let written = out.into_vec()?;
    Ok(written)
}

fn keys_again(alloc: Global, bytes: &[u8]) -> Result<Vec<u8>, FieldError> {
    let (writes, rest) = writes_at(alloc, 1, bytes)?;
    let (compares, rest) = compares_at(alloc, 2, rest)?;
    let (changes, rest) = changes_at(alloc, 3, rest)?;
    let (number, rest) = optional_at(4, rest)?;
    end_at(5, rest)?;
    let mut out = BytesMut::new(alloc);
    put_writes(&mut out, writes.as_slice())?;
    put_compares(&mut out, compares.as_slice())?;
    put_changes(&mut out, changes.as_slice())?;
    put_optional(&mut out, number)?;
    let written = out.into_vec()?;
    Ok(written)
}

fn refusal(alloc: Global, bytes: &[u8]) -> Option<FieldError> {
    match names_again(alloc, bytes) {
        Ok(_) => None,
        Err(e) => Some(e),
    }
}

#[test]
fn fields_by_hand(rt: HostRuntime) -> Result<(), Fail> {
    let alloc = rt.alloc();
    let names = names_again(alloc, &NAMES).ok().ok_or("no names")?;
    assert_eq!(rt; names.as_slice(), NAMES.as_slice());
    let image = image_again(alloc, &IMAGE).ok().ok_or("no image")?;
    assert_eq!(rt; image.as_slice(), IMAGE.as_slice());
    let keys = keys_again(alloc, &KEYS).ok().ok_or("no keys")?;
    assert_eq!(rt; keys.as_slice(), KEYS.as_slice());
    let x = name(alloc, b"x")?;
    let mut out = BytesMut::new(alloc);
    put_text(&mut out, &x).ok().ok_or("no memory")?;
    assert_eq!(rt; out.as_slice(), [0, 1, 120].as_slice());
    Ok(())
}

#[test]
fn a_count_makes_no_room(rt: HostRuntime) -> Result<(), Fail> {
    let alloc = rt.alloc();
    // a count of 2 ^ 32 - 1 with three bytes behind it
    let many = [255, 255, 255, 255, 0, 1, 120];
    let bad = Some(FieldError::Bad { field: 1 });
    assert_eq!(rt; refusal(alloc, &many), bad);
    assert_eq!(rt; refusal(alloc, &NAMES[..8]), bad);
    Ok(())
}
