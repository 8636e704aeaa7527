//! Writing the fields of messages between the members of a route.
ghost use Rattle.std.specs.Prelude.{◌≡◌, ◌++◌, OnOk};
ghost use Rattle.gz_spelling.specs.Messages.{payload};
ghost use Rattle.gz_wire.specs.declared.msg.Msg.TheVariants as kinds;

use bytes::BytesMut;
use gz_codec::{put_entry, put_image, put_number, put_text};
use gz_label::{Entry, Image, Name};
use std::alloc::AllocError;

#[tactic(auto, unfolding(crate::specs::Messages::payload))]
pub fn put_promise(out: &mut BytesMut, journal: &Name, epoch: u64) -> Result<(), AllocError>
    ensures { OnOk result
        (out.new.items ≡ out.old.items ++ payload (kinds.Promise journal.now epoch)) }
{
    put_text(out, journal)?;
    put_number(out, epoch)?;
    Ok(())
}

#[tactic(auto, unfolding(crate::specs::Messages::payload))]
pub fn put_promised(
    out: &mut BytesMut,
    journal: &Name,
    epoch: u64,
    adopted: u64,
    image: &Image,
) -> Result<(), AllocError>
    ensures { OnOk result
        (out.new.items ≡ out.old.items
        ++ payload (kinds.Promised journal.now epoch adopted image.now)) }
{
    put_text(out, journal)?;
    put_number(out, epoch)?;
    put_number(out, adopted)?;
    put_image(out, image)?;
    Ok(())
}

#[tactic(auto, unfolding(crate::specs::Messages::payload))]
pub fn put_adopt(
    out: &mut BytesMut,
    journal: &Name,
    epoch: u64,
    image: &Image,
) -> Result<(), AllocError>
    ensures { OnOk result
        (out.new.items ≡ out.old.items ++ payload (kinds.Adopt journal.now epoch image.now)) }
{
    put_text(out, journal)?;
    put_number(out, epoch)?;
    put_image(out, image)?;
    Ok(())
}

#[tactic(auto, unfolding(crate::specs::Messages::payload))]
pub fn put_adopted(
    out: &mut BytesMut,
    journal: &Name,
    epoch: u64,
    end: u64,
) -> Result<(), AllocError>
    ensures { OnOk result
        (out.new.items ≡ out.old.items ++ payload (kinds.Adopted journal.now epoch end)) }
{
    put_text(out, journal)?;
    put_number(out, epoch)?;
    put_number(out, end)?;
    Ok(())
}

#[tactic(auto, unfolding(crate::specs::Messages::payload))]
pub fn put_refuse(
    out: &mut BytesMut,
    journal: &Name,
    epoch: u64,
    code: u64,
    value: u64,
) -> Result<(), AllocError>
    ensures { OnOk result
        (out.new.items ≡ out.old.items ++ payload (kinds.Refuse journal.now epoch code value)) }
{
    put_text(out, journal)?;
    put_number(out, epoch)?;
    put_number(out, code)?;
    put_number(out, value)?;
    Ok(())
}

#[tactic(auto, unfolding(crate::specs::Messages::payload))]
pub fn put_replicate(
    out: &mut BytesMut,
    journal: &Name,
    epoch: u64,
    offset: u64,
    entry: &Entry,
    head: u64,
) -> Result<(), AllocError>
    ensures { OnOk result
        (out.new.items ≡ out.old.items
        ++ payload (kinds.Replicate journal.now epoch offset entry.now head)) }
{
    put_text(out, journal)?;
    put_number(out, epoch)?;
    put_number(out, offset)?;
    put_entry(out, entry)?;
    put_number(out, head)?;
    Ok(())
}

#[tactic(auto, unfolding(crate::specs::Messages::payload))]
pub fn put_held(out: &mut BytesMut, journal: &Name, epoch: u64, end: u64) -> Result<(), AllocError>
    ensures { OnOk result
        (out.new.items ≡ out.old.items ++ payload (kinds.Held journal.now epoch end)) }
{
    put_text(out, journal)?;
    put_number(out, epoch)?;
    put_number(out, end)?;
    Ok(())
}

#[tactic(auto, unfolding(crate::specs::Messages::payload))]
pub fn put_head(
    out: &mut BytesMut,
    journal: &Name,
    epoch: u64,
    head: u64,
    begin: u64,
) -> Result<(), AllocError>
    ensures { OnOk result
        (out.new.items ≡ out.old.items ++ payload (kinds.Head journal.now epoch head begin)) }
{
    put_text(out, journal)?;
    put_number(out, epoch)?;
    put_number(out, head)?;
    put_number(out, begin)?;
    Ok(())
}
