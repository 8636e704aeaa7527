//! The bytes of a spool.
ghost use Rattle.std.specs.Prelude.{◌≡◌, ◌++◌, ◌-◌, ◌∷◌, [], IfOk, OnOk, drop, length, min, take};
ghost use Rattle.gz_journal.specs.JournalList.{text_of};
ghost use Rattle.gz_broker.specs.Closing.{kept_bytes, store_put};
ghost use Rattle.gz_broker.specs.Reading.{bytes_from};

use gz_label::{Blob, Name, NoMemory};
use gz_spool::Spool;
use gz_wire::{Msg, Send};
use std::alloc::Global;

/// The most bytes that a read is answered.
const MAX_READ: u64 = 262_144;

/// How many bytes are still passed over, and how many are still taken.
#[derive(Drop)]
struct Left {
    skip: u64,
    room: u64,
}

// Takes what is to be taken of the bytes.
#[tactic(auto, using(std::proofs::lemmas::List::drop_min, std::proofs::lemmas::List::take_min))]
fn take_part(blob: &mut Blob, bytes: &[u8], left: Left) -> Result<Left, NoMemory>
    ensures bytes { OnOk result
        (blob.new ≡ blob.old ++ take left.room (drop left.skip bytes.now)) }
    ensures skip { IfOk result (λ after. after.skip ≡ left.skip - length bytes.now) }
    ensures room { IfOk result
        (λ after. after.room ≡ left.room - length (drop left.skip bytes.now)) }
{
    let len = bytes.len() as u64;
    let start = left.skip.min(len) as usize;
    let rest = &bytes[start..];
    let count = left.room.min(rest.len() as u64) as usize;
    blob.append(&rest[..count])?;
    Ok(Left {
        skip: left.skip.saturating_sub(len),
        room: left.room.saturating_sub(rest.len() as u64),
    })
}

/// At most so many bytes of the spool's text, behind so many. It costs the entries up to the last of these bytes.
#[tactic(auto, using(crate::proofs::Parts::part_step, crate::proofs::Parts::no_room, crate::proofs::Parts::all_read))]
fn part_of(alloc: Global, spool: &Spool, skip: u64, count: u64) -> Result<Blob, NoMemory>
    ensures { IfOk result
        (λ bytes. bytes ≡ take count (drop skip (text_of spool.now.image.entries))) }
{
    let mut bytes = Blob::new(alloc);
    let mut left = Left { skip, room: count };
    let mut place = 0;
    'entries: while place < spool.len() && left.room > 0 {
        let entry = spool.entry(place);
        left = take_part(&mut bytes, entry.bytes.as_slice(), left)?;
        place += 1;
    }
    Ok(bytes)
}

/// The bytes from the offset up to the head, at most 262,144.
pub fn bytes_from(alloc: Global, spool: &Spool, offset: u64) -> Result<Blob, NoMemory>
    ensures { IfOk result (λ bytes. bytes ≡ bytes_from offset spool.now.image) }
{
    let skip = offset.saturating_sub(spool.begin());
    let count = MAX_READ.min(spool.head().saturating_sub(offset));
    let bytes = part_of(alloc, spool, skip, count)?;
    Ok(bytes)
}

// The bytes from begin to head.
fn kept_bytes(alloc: Global, spool: &Spool) -> Result<Blob, NoMemory>
    ensures { IfOk result (λ bytes. bytes ≡ kept_bytes spool.now.image) }
{
    let count = spool.head().saturating_sub(spool.begin());
    let bytes = part_of(alloc, spool, 0, count)?;
    Ok(bytes)
}

/// A put to the store of what the spool has from begin to head, as the request of this number.
pub fn store_put(alloc: Global, journal: &Name, req: u64, spool: &Spool) -> Result<Send, NoMemory>
    ensures { IfOk result (λ put. put ≡ store_put journal.now req spool.now.image) }
{
    let to = Name::of(alloc, "store")?;
    let content = kept_bytes(alloc, spool)?;
    let msg = Msg::StorePut {
        req,
        journal: journal.copy()?,
        begin: spool.begin(),
        end: spool.head(),
        content,
    };
    Ok(Send { to, msg })
}
