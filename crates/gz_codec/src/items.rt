//! How fields that are lists, and the parts of those, are read. A list grows with the items that are there, whatever its
//! count says.
ghost use Rattle.std.specs.Int.{w32};
ghost use Rattle.gz_codec.specs.Reading.{Gives, items_at, counted_at, text_at, entry_at, image_at, write_at, writes_at, compare_at, change_at};

use crate::FieldError;
use crate::field::{content_at, count_at, name_at, number_at, value_at};
use crate::labels::labels_at;
use gz_label::{Attempt, Change, Changes, Compare, Entries, Entry, Image, KeyWrite, Name, Writes};
use gz_wire::{Compares, Names};
use std::alloc::Global;

fn names_from(
    alloc: Global,
    field: u8,
    count: u32,
    bytes: &[u8],
) -> Result<(Vec<Name>, &[u8]), FieldError>
    ensures { Gives (λ x. (x.0.items, x.1.now)) result (items_at text_at count field bytes.now) }
{
    let mut items = Vec::new(alloc);
    let mut rest = bytes;
    'items: for _ in 0..count {
        let (item, after) = name_at(alloc, field, rest)?;
        items.push(item)?;
        rest = after;
    }
    Ok((items, rest))
}

/// The names at the start of the bytes, and the bytes behind them.
#[tactic(auto, unfolding(crate::specs::Reading::counted_at))]
pub fn names_at(alloc: Global, field: u8, bytes: &[u8]) -> Result<(Names, &[u8]), FieldError>
    ensures { Gives (λ x. (x.0, x.1.now)) result (counted_at w32 text_at field bytes.now) }
{
    let (count, rest) = count_at(field, bytes)?;
    let (items, rest) = names_from(alloc, field, count, rest)?;
    Ok((Names::from_vec(items), rest))
}

/// The entry at the start of the bytes, and the bytes behind it.
#[tactic(auto, unfolding(crate::specs::Reading::entry_at))]
pub fn entry_at(alloc: Global, field: u8, bytes: &[u8]) -> Result<(Entry, &[u8]), FieldError>
    ensures { Gives (λ x. (x.0, x.1.now)) result (entry_at field bytes.now) }
{
    let (node, rest) = name_at(alloc, field, bytes)?;
    let (req, rest) = number_at(field, rest)?;
    let (bytes, rest) = content_at(alloc, field, rest)?;
    let (registers, rest) = labels_at(alloc, field, rest)?;
    let attempt = Attempt { node, req };
    Ok((
        Entry {
            attempt,
            bytes,
            registers,
        },
        rest,
    ))
}

fn entries_from(
    alloc: Global,
    field: u8,
    count: u32,
    bytes: &[u8],
) -> Result<(Vec<Entry>, &[u8]), FieldError>
    ensures { Gives (λ x. (x.0.items, x.1.now)) result (items_at entry_at count field bytes.now) }
{
    let mut items = Vec::new(alloc);
    let mut rest = bytes;
    'items: for _ in 0..count {
        let (item, after) = entry_at(alloc, field, rest)?;
        items.push(item)?;
        rest = after;
    }
    Ok((items, rest))
}

/// The entries at the start of the bytes, and the bytes behind them.
#[tactic(auto, unfolding(crate::specs::Reading::counted_at))]
fn entries_at(alloc: Global, field: u8, bytes: &[u8]) -> Result<(Entries, &[u8]), FieldError>
    ensures { Gives (λ x. (x.0, x.1.now)) result (counted_at w32 entry_at field bytes.now) }
{
    let (count, rest) = count_at(field, bytes)?;
    let (items, rest) = entries_from(alloc, field, count, rest)?;
    Ok((Entries::of(items), rest))
}

/// The image at the start of the bytes, and the bytes behind it.
#[tactic(auto, unfolding(crate::specs::Reading::image_at))]
pub fn image_at(alloc: Global, field: u8, bytes: &[u8]) -> Result<(Image, &[u8]), FieldError>
    ensures { Gives (λ x. (x.0, x.1.now)) result (image_at field bytes.now) }
{
    let (begin, rest) = number_at(field, bytes)?;
    let (base, rest) = labels_at(alloc, field, rest)?;
    let (entries, rest) = entries_at(alloc, field, rest)?;
    let (head, rest) = number_at(field, rest)?;
    Ok((
        Image {
            begin,
            base,
            entries,
            head,
        },
        rest,
    ))
}

/// The write at the start of the bytes, and the bytes behind it.
#[tactic(auto, unfolding(crate::specs::Reading::write_at))]
fn write_at(alloc: Global, field: u8, bytes: &[u8]) -> Result<(KeyWrite, &[u8]), FieldError>
    ensures { Gives (λ x. (x.0, x.1.now)) result (write_at field bytes.now) }
{
    let (key, rest) = name_at(alloc, field, bytes)?;
    let (value, rest) = value_at(alloc, field, rest)?;
    Ok((KeyWrite { key, value }, rest))
}

fn writes_from(
    alloc: Global,
    field: u8,
    count: u32,
    bytes: &[u8],
) -> Result<(Vec<KeyWrite>, &[u8]), FieldError>
    ensures { Gives (λ x. (x.0.items, x.1.now)) result (items_at write_at count field bytes.now) }
{
    let mut items = Vec::new(alloc);
    let mut rest = bytes;
    'items: for _ in 0..count {
        let (item, after) = write_at(alloc, field, rest)?;
        items.push(item)?;
        rest = after;
    }
    Ok((items, rest))
}

/// The writes at the start of the bytes, and the bytes behind them.
#[tactic(auto, unfolding(crate::specs::Reading::writes_at, crate::specs::Reading::counted_at))]
pub fn writes_at(alloc: Global, field: u8, bytes: &[u8]) -> Result<(Writes, &[u8]), FieldError>
    ensures { Gives (λ x. (x.0, x.1.now)) result (writes_at field bytes.now) }
{
    let (count, rest) = count_at(field, bytes)?;
    let (items, rest) = writes_from(alloc, field, count, rest)?;
    Ok((Writes::from_vec(items), rest))
}

/// The compare at the start of the bytes, and the bytes behind it.
#[tactic(auto, unfolding(crate::specs::Reading::compare_at))]
fn compare_at(alloc: Global, field: u8, bytes: &[u8]) -> Result<(Compare, &[u8]), FieldError>
    ensures { Gives (λ x. (x.0, x.1.now)) result (compare_at field bytes.now) }
{
    let (key, rest) = name_at(alloc, field, bytes)?;
    let (mod_revision, rest) = number_at(field, rest)?;
    Ok((Compare { key, mod_revision }, rest))
}

fn compares_from(
    alloc: Global,
    field: u8,
    count: u32,
    bytes: &[u8],
) -> Result<(Vec<Compare>, &[u8]), FieldError>
    ensures { Gives (λ x. (x.0.items, x.1.now)) result (items_at compare_at count field bytes.now) }
{
    let mut items = Vec::new(alloc);
    let mut rest = bytes;
    'items: for _ in 0..count {
        let (item, after) = compare_at(alloc, field, rest)?;
        items.push(item)?;
        rest = after;
    }
    Ok((items, rest))
}

/// The compares at the start of the bytes, and the bytes behind them.
#[tactic(auto, unfolding(crate::specs::Reading::counted_at))]
pub fn compares_at(alloc: Global, field: u8, bytes: &[u8]) -> Result<(Compares, &[u8]), FieldError>
    ensures { Gives (λ x. (x.0, x.1.now)) result (counted_at w32 compare_at field bytes.now) }
{
    let (count, rest) = count_at(field, bytes)?;
    let (items, rest) = compares_from(alloc, field, count, rest)?;
    Ok((Compares::from_vec(items), rest))
}

/// The change at the start of the bytes, and the bytes behind it.
#[tactic(auto, unfolding(crate::specs::Reading::change_at))]
fn change_at(alloc: Global, field: u8, bytes: &[u8]) -> Result<(Change, &[u8]), FieldError>
    ensures { Gives (λ x. (x.0, x.1.now)) result (change_at field bytes.now) }
{
    let (revision, rest) = number_at(field, bytes)?;
    let (writes, rest) = writes_at(alloc, field, rest)?;
    Ok((Change { revision, writes }, rest))
}

fn changes_from(
    alloc: Global,
    field: u8,
    count: u32,
    bytes: &[u8],
) -> Result<(Vec<Change>, &[u8]), FieldError>
    ensures { Gives (λ x. (x.0.items, x.1.now)) result (items_at change_at count field bytes.now) }
{
    let mut items = Vec::new(alloc);
    let mut rest = bytes;
    'items: for _ in 0..count {
        let (item, after) = change_at(alloc, field, rest)?;
        items.push(item)?;
        rest = after;
    }
    Ok((items, rest))
}

/// The changes at the start of the bytes, and the bytes behind them.
#[tactic(auto, unfolding(crate::specs::Reading::counted_at))]
pub fn changes_at(alloc: Global, field: u8, bytes: &[u8]) -> Result<(Changes, &[u8]), FieldError>
    ensures { Gives (λ x. (x.0, x.1.now)) result (counted_at w32 change_at field bytes.now) }
{
    let (count, rest) = count_at(field, bytes)?;
    let (items, rest) = changes_from(alloc, field, count, rest)?;
    Ok((Changes::from_vec(items), rest))
}
