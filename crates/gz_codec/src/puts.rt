//! How fields are written.
ghost use Rattle.std.specs.Prelude.{◌≡◌, ◌++◌, OnOk};
ghost use Rattle.std.specs.Int.{w16, w32, to_be_bytes};
ghost use Rattle.std.specs.List.{flat_map};
ghost use Rattle.gz_codec.specs.Spelling.{number, text, content, flagged, counted, label, labels, entry, image, write, writes, compare, change};

use bytes::{BufMut, BytesMut};
use gz_label::{Blob, Change, Compare, Entry, Image, KeyWrite, Label, LabelSet, Name};
use std::alloc::AllocError;

/// The low 32 bits of a length. A body with a length that has more is refused as too long.
#[tactic(auto, using(crate::proofs::Widths::low_32))]
fn low_32(len: usize) -> u32
    ensures { to_be_bytes w32 result ≡ to_be_bytes w32 len }
{
    (len % 0x1_0000_0000) as u32
}

/// Writes the number in eight bytes, the high one first.
#[tactic(auto, unfolding(crate::specs::Spelling::number))]
pub fn put_number(out: &mut BytesMut, n: u64) -> Result<(), AllocError>
    ensures { OnOk result (out.new.items ≡ out.old.items ++ number n) }
{
    out.put_u64(n)
}

/// Writes a byte 0, or a byte 1 and the number.
#[tactic(auto, unfolding(crate::specs::Spelling::flagged, crate::specs::Spelling::number))]
pub fn put_optional(out: &mut BytesMut, n: Option<u64>) -> Result<(), AllocError>
    ensures { OnOk result (out.new.items ≡ out.old.items ++ flagged number n) }
{
    match n {
        None => out.put_u8(0)?,
        Some(n) => {
            out.put_u8(1)?;
            out.put_u64(n)?;
        }
    }
    Ok(())
}

/// Writes the length of the name in two bytes, and the name.
#[tactic(auto, unfolding(crate::specs::Spelling::text))]
pub fn put_text(out: &mut BytesMut, name: &Name) -> Result<(), AllocError>
    ensures { OnOk result (out.new.items ≡ out.old.items ++ text name.now) }
{
    let bytes = name.as_slice();
    out.put_u16(bytes.len() as u16)?;
    out.put_slice(bytes)?;
    Ok(())
}

/// Writes the low 32 bits of the count, the high byte first.
pub fn put_count(out: &mut BytesMut, len: usize) -> Result<(), AllocError>
    ensures { OnOk result (out.new.items ≡ out.old.items ++ to_be_bytes w32 len) }
{
    out.put_u32(low_32(len))?;
    Ok(())
}

/// Writes the length of the content in four bytes, and the content.
#[tactic(auto, unfolding(crate::specs::Spelling::content))]
pub fn put_content(out: &mut BytesMut, blob: &Blob) -> Result<(), AllocError>
    ensures { OnOk result (out.new.items ≡ out.old.items ++ content blob.now) }
{
    let bytes = blob.as_slice();
    put_count(out, bytes.len())?;
    out.put_slice(bytes)?;
    Ok(())
}

/// Writes a byte 0, or a byte 1 and the content.
#[tactic(auto, unfolding(crate::specs::Spelling::flagged))]
fn put_value(out: &mut BytesMut, value: &Option<Blob>) -> Result<(), AllocError>
    ensures { OnOk result (out.new.items ≡ out.old.items ++ flagged content value.now) }
{
    match value {
        None => out.put_u8(0)?,
        Some(value) => {
            out.put_u8(1)?;
            put_content(out, value)?;
        }
    }
    Ok(())
}

#[tactic(auto, unfolding(crate::specs::Spelling::label))]
fn put_label(out: &mut BytesMut, one: &Label) -> Result<(), AllocError>
    ensures { OnOk result (out.new.items ≡ out.old.items ++ label one.now) }
{
    put_text(out, &one.name)?;
    put_text(out, &one.value)?;
    Ok(())
}

fn put_each_label(out: &mut BytesMut, items: &[Label]) -> Result<(), AllocError>
    ensures { OnOk result (out.new.items ≡ out.old.items ++ flat_map label items.now) }
{
    for item in items {
        put_label(out, item)?;
    }
    Ok(())
}

/// Writes the count of the labels in two bytes, and each label.
#[tactic(auto, using(gz_label::proofs::Sets::few_of_set), unfolding(crate::specs::Spelling::labels, crate::specs::Spelling::counted))]
pub fn put_labels(out: &mut BytesMut, set: &LabelSet) -> Result<(), AllocError>
    ensures { OnOk result (out.new.items ≡ out.old.items ++ labels set.now) }
{
    let items = set.as_slice();
    let len = items.len();
    out.put_u16(len as u16)?;
    put_each_label(out, items)?;
    Ok(())
}

fn put_each_text(out: &mut BytesMut, items: &[Name]) -> Result<(), AllocError>
    ensures { OnOk result (out.new.items ≡ out.old.items ++ flat_map text items.now) }
{
    for item in items {
        put_text(out, item)?;
    }
    Ok(())
}

/// Writes the count of the names in four bytes, and each name.
#[tactic(auto, unfolding(crate::specs::Spelling::counted))]
pub fn put_names(out: &mut BytesMut, items: &[Name]) -> Result<(), AllocError>
    ensures { OnOk result (out.new.items ≡ out.old.items ++ counted w32 text items.now) }
{
    put_count(out, items.len())?;
    put_each_text(out, items)?;
    Ok(())
}

/// Writes the entry: its node, its number, its bytes, and its registers.
#[tactic(auto, unfolding(crate::specs::Spelling::entry))]
pub fn put_entry(out: &mut BytesMut, one: &Entry) -> Result<(), AllocError>
    ensures { OnOk result (out.new.items ≡ out.old.items ++ entry one.now) }
{
    put_text(out, &one.attempt.node)?;
    put_number(out, one.attempt.req)?;
    put_content(out, &one.bytes)?;
    put_labels(out, &one.registers)?;
    Ok(())
}

fn put_each_entry(out: &mut BytesMut, items: &[Entry]) -> Result<(), AllocError>
    ensures { OnOk result (out.new.items ≡ out.old.items ++ flat_map entry items.now) }
{
    for item in items {
        put_entry(out, item)?;
    }
    Ok(())
}

/// Writes the count of the entries in four bytes, and each entry.
#[tactic(auto, unfolding(crate::specs::Spelling::counted))]
pub fn put_entries(out: &mut BytesMut, items: &[Entry]) -> Result<(), AllocError>
    ensures { OnOk result (out.new.items ≡ out.old.items ++ counted w32 entry items.now) }
{
    put_count(out, items.len())?;
    put_each_entry(out, items)?;
    Ok(())
}

/// Writes the image: its begin, its base, its entries, and its head.
#[tactic(auto, unfolding(crate::specs::Spelling::image))]
pub fn put_image(out: &mut BytesMut, one: &Image) -> Result<(), AllocError>
    ensures { OnOk result (out.new.items ≡ out.old.items ++ image one.now) }
{
    put_number(out, one.begin)?;
    put_labels(out, &one.base)?;
    put_entries(out, one.entries.as_slice())?;
    put_number(out, one.head)?;
    Ok(())
}

#[tactic(auto, unfolding(crate::specs::Spelling::write))]
fn put_write(out: &mut BytesMut, one: &KeyWrite) -> Result<(), AllocError>
    ensures { OnOk result (out.new.items ≡ out.old.items ++ write one.now) }
{
    put_text(out, &one.key)?;
    put_value(out, &one.value)?;
    Ok(())
}

fn put_each_write(out: &mut BytesMut, items: &[KeyWrite]) -> Result<(), AllocError>
    ensures { OnOk result (out.new.items ≡ out.old.items ++ flat_map write items.now) }
{
    for item in items {
        put_write(out, item)?;
    }
    Ok(())
}

/// Writes the count of the writes in four bytes, and each write.
#[tactic(auto, unfolding(crate::specs::Spelling::writes, crate::specs::Spelling::counted))]
pub fn put_writes(out: &mut BytesMut, items: &[KeyWrite]) -> Result<(), AllocError>
    ensures { OnOk result (out.new.items ≡ out.old.items ++ writes items.now) }
{
    put_count(out, items.len())?;
    put_each_write(out, items)?;
    Ok(())
}

#[tactic(auto, unfolding(crate::specs::Spelling::compare))]
fn put_compare(out: &mut BytesMut, one: &Compare) -> Result<(), AllocError>
    ensures { OnOk result (out.new.items ≡ out.old.items ++ compare one.now) }
{
    put_text(out, &one.key)?;
    put_number(out, one.mod_revision)?;
    Ok(())
}

fn put_each_compare(out: &mut BytesMut, items: &[Compare]) -> Result<(), AllocError>
    ensures { OnOk result (out.new.items ≡ out.old.items ++ flat_map compare items.now) }
{
    for item in items {
        put_compare(out, item)?;
    }
    Ok(())
}

/// Writes the count of the compares in four bytes, and each compare.
#[tactic(auto, unfolding(crate::specs::Spelling::counted))]
pub fn put_compares(out: &mut BytesMut, items: &[Compare]) -> Result<(), AllocError>
    ensures { OnOk result (out.new.items ≡ out.old.items ++ counted w32 compare items.now) }
{
    put_count(out, items.len())?;
    put_each_compare(out, items)?;
    Ok(())
}

#[tactic(auto, unfolding(crate::specs::Spelling::change))]
fn put_change(out: &mut BytesMut, one: &Change) -> Result<(), AllocError>
    ensures { OnOk result (out.new.items ≡ out.old.items ++ change one.now) }
{
    put_number(out, one.revision)?;
    put_writes(out, one.writes.as_slice())?;
    Ok(())
}

fn put_each_change(out: &mut BytesMut, items: &[Change]) -> Result<(), AllocError>
    ensures { OnOk result (out.new.items ≡ out.old.items ++ flat_map change items.now) }
{
    for item in items {
        put_change(out, item)?;
    }
    Ok(())
}

/// Writes the count of the changes in four bytes, and each change.
#[tactic(auto, unfolding(crate::specs::Spelling::counted))]
pub fn put_changes(out: &mut BytesMut, items: &[Change]) -> Result<(), AllocError>
    ensures { OnOk result (out.new.items ≡ out.old.items ++ counted w32 change items.now) }
{
    put_count(out, items.len())?;
    put_each_change(out, items)?;
    Ok(())
}
