//! Rows, and whether the codec says the same.

use crate::fields::fields_of;
use crate::values::text;
use gz_label::NoMemory;
use gz_spelling::{Decoded, WireError, decode, encode, tag_of};
use serde_json::{Map, Value};
use std::alloc::Global;

/// The tags that kinds have are those from this one ..
const FIRST_TAG: u8 = 1;

/// .. up to this one.
const LAST_TAG: u8 = 26;

/// How many bytes stand before the name of the peer: the length of the body, and that of the name.
const BEFORE_PEER: usize = 6;

/// The row of bytes that are refused.
fn refused(alloc: Global, digits: &str, why: String) -> Result<Value, NoMemory> {
    let mut members = Map::new(alloc);
    members.insert(
        String::from_str(alloc, "hex")?,
        Value::try_from_str(alloc, digits)?,
    )?;
    members.insert(String::from_str(alloc, "refused")?, Value::from(why))?;
    Ok(Value::from(members))
}

/// The row of bytes that begin with a message.
fn accepted(alloc: Global, digits: &str, decoded: &Decoded) -> Result<Value, NoMemory> {
    let kind = decoded.msg.kind();
    let mut members = Map::new(alloc);
    members.insert(
        String::from_str(alloc, "hex")?,
        Value::try_from_str(alloc, digits)?,
    )?;
    members.insert(String::from_str(alloc, "used")?, Value::from(decoded.used))?;
    members.insert(
        String::from_str(alloc, "peer")?,
        text(alloc, &decoded.peer)?,
    )?;
    members.insert(String::from_str(alloc, "tag")?, Value::from(tag_of(kind)))?;
    members.insert(
        String::from_str(alloc, "kind")?,
        Value::try_from_str(alloc, kind.name())?,
    )?;
    members.insert(
        String::from_str(alloc, "fields")?,
        Value::Array(fields_of(alloc, &decoded.msg)?),
    )?;
    Ok(Value::from(members))
}

/// How a row says the error.
fn text_of(alloc: Global, error: WireError) -> Result<String, NoMemory> {
    match error {
        WireError::TooLong => Ok(String::from_str(alloc, "TooLong")?),
        WireError::NeedMore => Ok(String::from_str(alloc, "NeedMore")?),
        WireError::BadTag { tag } => Ok(format!(in alloc; "BadTag {tag}")?),
        WireError::BadField { tag, field } => Ok(format!(in alloc; "BadField {tag} {field}")?),
        WireError::NoMemory => Err(NoMemory),
    }
}

/// Whether the message is spelled by the bytes that it was read from, and by those alone where they are all.
fn is_spelled_so(alloc: Global, bytes: &[u8], decoded: &Decoded) -> Result<bool, NoMemory> {
    match encode(alloc, &decoded.peer, &decoded.msg) {
        Ok(spelling) => {
            Ok(spelling.len() == decoded.used && bytes.starts_with(spelling.as_slice()))
        }
        Err(WireError::NoMemory) => Err(NoMemory),
        Err(_) => Ok(false),
    }
}

/// Whether each proper prefix of the spelling wants more bytes.
fn prefixes_need_more(alloc: Global, spelling: &[u8]) -> bool {
    for end in 0..spelling.len() {
        match decode(alloc, &spelling[..end]) {
            Err(WireError::NeedMore) => {}
            _ => return false,
        }
    }
    true
}

/// Whether the bytes are refused for the tag.
fn is_bad_tag(alloc: Global, bytes: &[u8], wanted: u8) -> bool {
    match decode(alloc, bytes) {
        Err(WireError::BadTag { tag }) => tag == wanted,
        _ => false,
    }
}

/// Whether the bytes with this tag at the place are refused for it, or a kind has the tag.
fn is_known_or_bad(alloc: Global, bytes: &mut [u8], place: usize, tag: u8) -> bool {
    if let Some(byte) = bytes.get_mut(place) {
        *byte = tag;
    }
    (FIRST_TAG <= tag && tag <= LAST_TAG) || is_bad_tag(alloc, bytes, tag)
}

/// Whether the spelling, whose tag stands at the place, is refused with each tag that no kind has.
fn other_tags_are_bad(alloc: Global, spelling: &[u8], place: usize) -> Result<bool, NoMemory> {
    let mut bytes = Vec::from_slice(alloc, spelling)?;
    for n in 0..256u16 {
        let tag = n as u8;
        if !is_known_or_bad(alloc, bytes.as_mut_slice(), place, tag) {
            return Ok(false);
        }
    }
    Ok(true)
}

/// Whether the codec says of the bytes of the message, of its prefixes, and of it with other tags, what it has to.
fn holds_up(alloc: Global, bytes: &[u8], decoded: &Decoded) -> Result<bool, NoMemory> {
    if !is_spelled_so(alloc, bytes, decoded)? {
        return Ok(false);
    }
    let (spelling, _more) = bytes.split_at(decoded.used.min(bytes.len()));
    let place = decoded.peer.as_slice().len().saturating_add(BEFORE_PEER);
    Ok(prefixes_need_more(alloc, spelling) && other_tags_are_bad(alloc, spelling, place)?)
}

/// What the codec says of the bytes. It has no clause: what `decode` answers is not to be computed here.
fn read(alloc: Global, bytes: &[u8]) -> Result<Decoded, WireError> {
    decode(alloc, bytes)
}

/// The row of a message that the bytes begin with, or None where it doesn't hold up.
fn row_of_message(
    alloc: Global,
    digits: &str,
    bytes: &[u8],
    decoded: &Decoded,
) -> Result<Option<Value>, NoMemory> {
    if !holds_up(alloc, bytes, decoded)? {
        return Ok(None);
    }
    let row = accepted(alloc, digits, decoded)?;
    Ok(Some(row))
}

/// The row of bytes that begin with no message.
fn row_of_error(alloc: Global, digits: &str, error: WireError) -> Result<Option<Value>, NoMemory> {
    let why = text_of(alloc, error)?;
    let row = refused(alloc, digits, why)?;
    Ok(Some(row))
}

/// The row of the bytes, or None where the message that they begin with doesn't hold up.
fn row_of(alloc: Global, digits: &str, bytes: &[u8]) -> Result<Option<Value>, NoMemory> {
    match read(alloc, bytes) {
        Ok(decoded) => row_of_message(alloc, digits, bytes, &decoded),
        Err(error) => row_of_error(alloc, digits, error),
    }
}

/// Whether the two are one value.
fn is_same(alloc: Global, one: &Value, other: &Value) -> Result<bool, NoMemory> {
    let one = one.to_string(alloc)?;
    let other = other.to_string(alloc)?;
    Ok(one.as_str() == other.as_str())
}

/// The bytes of the digits, or None where they aren't hexadecimal.
fn bytes_of(alloc: Global, digits: &str) -> Result<Option<Vec<u8>>, NoMemory> {
    match hex::decode(alloc, digits.as_bytes()) {
        Ok(bytes) => Ok(Some(bytes)),
        Err(hex::FromHexError::OutOfMemory) => Err(NoMemory),
        Err(_) => Ok(None),
    }
}

/// Whether the codec says of the row's bytes what the row says.
pub fn agrees(alloc: Global, line: &[u8]) -> Result<bool, NoMemory> {
    let Some(row) = gz_json::parse(alloc, line)? else {
        return Ok(false);
    };
    let Some(digits) = row.get("hex").and_then(Value::as_str) else {
        return Ok(false);
    };
    let Some(bytes) = bytes_of(alloc, digits)? else {
        return Ok(false);
    };
    match row_of(alloc, digits, bytes.as_slice())? {
        None => Ok(false),
        Some(said) => is_same(alloc, &row, &said),
    }
}
