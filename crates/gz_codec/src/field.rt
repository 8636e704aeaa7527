//! The kinds of fields, and how fields that aren't lists are read.
ghost use Rattle.std.specs.Prelude.{Ok, Err, if◌then◌else◌};
ghost use Rattle.std.specs.Int.{w16, w32, w64};
ghost use Rattle.gz_codec.specs.Spelling.{is_name};
ghost use Rattle.gz_codec.specs.Reading.{Gives, number_at, part_at, string_at, text_at, content_at, flagged_at, end_at};

use crate::FieldError;
use gz_label::{Blob, LabelError, Name};
use std::alloc::Global;

/// How a field is spelled. All numbers, lengths and counts have their high byte first.
#[derive(Clone, Copy, Debug, PartialEq, Eq)]
pub enum FieldKind {
    /// A number in eight bytes.
    Number,
    /// A byte 0, or a byte 1 and a number.
    Optional,
    /// A length of at most 1,024 in two bytes, and UTF-8.
    Text,
    /// A length in four bytes, and bytes.
    Bytes,
    /// A count of at most 64 in two bytes, and for each label its name and its value as texts; strictly increasing.
    Labels,
    /// A count in four bytes, and texts.
    Names,
    /// The node of an attempt as a text and its number, the bytes, and the registers as labels.
    Entry,
    /// The begin as a number, the base as labels, a count in four bytes, entries, and the head as a number.
    Image,
    /// A count in four bytes, and for each write its key as a text, and a byte 0, or a byte 1 and the value as bytes.
    Writes,
    /// A count in four bytes, and for each compare its key as a text and a number.
    Compares,
    /// A count in four bytes, and for each change its revision as a number and its writes.
    Changes,
}

/// A count or a length in two bytes at the start of the bytes, and the bytes behind it.
#[tactic(auto, unfolding(crate::specs::Reading::number_at))]
pub fn short_at(field: u8, bytes: &[u8]) -> Result<(u16, &[u8]), FieldError>
    ensures { Gives (λ x. (x.0, x.1.now)) result (number_at w16 field bytes.now) }
{
    if bytes.len() < 2 {
        return Err(FieldError::Bad { field });
    }
    let (head, rest) = bytes.split_at(2);
    Ok((u16::from_be_bytes([head[0], head[1]]), rest))
}

/// A count or a length in four bytes at the start of the bytes, and the bytes behind it.
#[tactic(auto, unfolding(crate::specs::Reading::number_at))]
pub fn count_at(field: u8, bytes: &[u8]) -> Result<(u32, &[u8]), FieldError>
    ensures { Gives (λ x. (x.0, x.1.now)) result (number_at w32 field bytes.now) }
{
    if bytes.len() < 4 {
        return Err(FieldError::Bad { field });
    }
    let (head, rest) = bytes.split_at(4);
    let count = u32::from_be_bytes([head[0], head[1], head[2], head[3]]);
    Ok((count, rest))
}

/// The number at the start of the bytes, and the bytes behind it.
#[tactic(auto, unfolding(crate::specs::Reading::number_at))]
pub fn number_at(field: u8, bytes: &[u8]) -> Result<(u64, &[u8]), FieldError>
    ensures { Gives (λ x. (x.0, x.1.now)) result (number_at w64 field bytes.now) }
{
    if bytes.len() < 8 {
        return Err(FieldError::Bad { field });
    }
    let (head, rest) = bytes.split_at(8);
    let number = u64::from_be_bytes([
        head[0], head[1], head[2], head[3], head[4], head[5], head[6], head[7],
    ]);
    Ok((number, rest))
}

/// The number that may be at the start of the bytes, and the bytes behind it.
#[tactic(auto, unfolding(crate::specs::Reading::flagged_at))]
pub fn optional_at(field: u8, bytes: &[u8]) -> Result<(Option<u64>, &[u8]), FieldError>
    ensures { Gives (λ x. (x.0, x.1.now)) result (flagged_at (number_at w64) field bytes.now) }
{
    match bytes {
        [0, rest @ ..] => Ok((None, rest)),
        [1, rest @ ..] => {
            let (number, rest) = number_at(field, rest)?;
            Ok((Some(number), rest))
        }
        _ => Err(FieldError::Bad { field }),
    }
}

/// The first bytes, and those behind them.
#[tactic(auto, unfolding(crate::specs::Reading::part_at))]
fn part_at(field: u8, len: usize, bytes: &[u8]) -> Result<(&[u8], &[u8]), FieldError>
    ensures { Gives (λ x. (x.0.now, x.1.now)) result (part_at len field bytes.now) }
{
    if bytes.len() < len {
        return Err(FieldError::Bad { field });
    }
    Ok(bytes.split_at(len))
}

fn name_of(alloc: Global, field: u8, text: &[u8]) -> Result<Name, FieldError>
    ensures { Gives (λ name. name) result (if is_name text.now then Ok text.now else Err field) }
{
    match Name::read(alloc, text) {
        Ok(name) => Ok(name),
        Err(LabelError::NoMemory) => Err(FieldError::NoMemory),
        Err(_) => Err(FieldError::Bad { field }),
    }
}

/// The text at the start of the bytes, and the bytes behind it.
#[tactic(auto, unfolding(crate::specs::Reading::text_at, crate::specs::Reading::string_at))]
pub fn name_at(alloc: Global, field: u8, bytes: &[u8]) -> Result<(Name, &[u8]), FieldError>
    ensures { Gives (λ x. (x.0, x.1.now)) result (text_at field bytes.now) }
{
    let (len, rest) = short_at(field, bytes)?;
    let (text, rest) = part_at(field, len as usize, rest)?;
    let name = name_of(alloc, field, text)?;
    Ok((name, rest))
}

/// The bytes of a content at the start of the bytes, and the bytes behind it.
#[tactic(auto, unfolding(crate::specs::Reading::content_at, crate::specs::Reading::string_at))]
pub fn content_at(alloc: Global, field: u8, bytes: &[u8]) -> Result<(Blob, &[u8]), FieldError>
    ensures { Gives (λ x. (x.0, x.1.now)) result (content_at field bytes.now) }
{
    let (len, rest) = count_at(field, bytes)?;
    let (content, rest) = part_at(field, len as usize, rest)?;
    let content = Blob::of(alloc, content)?;
    Ok((content, rest))
}

/// The content that may be at the start of the bytes, and the bytes behind it.
#[tactic(auto, unfolding(crate::specs::Reading::flagged_at))]
pub fn value_at(alloc: Global, field: u8, bytes: &[u8]) -> Result<(Option<Blob>, &[u8]), FieldError>
    ensures { Gives (λ x. (x.0, x.1.now)) result (flagged_at content_at field bytes.now) }
{
    match bytes {
        [0, rest @ ..] => Ok((None, rest)),
        [1, rest @ ..] => {
            let (value, rest) = content_at(alloc, field, rest)?;
            Ok((Some(value), rest))
        }
        _ => Err(FieldError::Bad { field }),
    }
}

/// Nothing is left.
#[tactic(auto, unfolding(crate::specs::Reading::end_at))]
pub fn end_at(field: u8, bytes: &[u8]) -> Result<(), FieldError>
    ensures { Gives (λ _. tt) result (end_at field bytes.now) }
{
    if !bytes.is_empty() {
        return Err(FieldError::Bad { field });
    }
    Ok(())
}
