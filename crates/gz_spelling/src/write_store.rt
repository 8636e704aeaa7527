//! Writing the fields of messages of clients and of the store.
ghost use Rattle.std.specs.Prelude.{◌≡◌, ◌++◌, OnOk};
ghost use Rattle.gz_spelling.specs.Messages.{payload};
ghost use Rattle.gz_wire.specs.declared.msg.Msg.TheVariants as kinds;

use bytes::BytesMut;
use gz_codec::{put_content, put_labels, put_names, put_number, put_optional, put_text};
use gz_label::{Blob, LabelSet, Name};
use gz_wire::Names;
use std::alloc::AllocError;

#[tactic(auto, unfolding(crate::specs::Messages::payload))]
pub fn put_append(
    out: &mut BytesMut,
    req: u64,
    journal: &Name,
    epoch: Option<u64>,
    offset: Option<u64>,
    selector: &Name,
    take: &LabelSet,
    add: &LabelSet,
    content: &Blob,
) -> Result<(), AllocError>
    ensures { OnOk result
        (out.new.items ≡ out.old.items ++
        payload (kinds.Append req journal.now epoch offset selector.now take.now add.now content.now)) }
{
    put_number(out, req)?;
    put_text(out, journal)?;
    put_optional(out, epoch)?;
    put_optional(out, offset)?;
    put_text(out, selector)?;
    put_labels(out, take)?;
    put_labels(out, add)?;
    put_content(out, content)?;
    Ok(())
}

#[tactic(auto, unfolding(crate::specs::Messages::payload))]
pub fn put_append_done(
    out: &mut BytesMut,
    req: u64,
    journal: &Name,
    status: u64,
    begin: u64,
    end: u64,
    value: u64,
    labels: &LabelSet,
    route: &Names,
) -> Result<(), AllocError>
    ensures { OnOk result
        (out.new.items ≡ out.old.items
        ++ payload (kinds.AppendDone req journal.now status begin end value labels.now route.now)) }
{
    put_number(out, req)?;
    put_text(out, journal)?;
    put_number(out, status)?;
    put_number(out, begin)?;
    put_number(out, end)?;
    put_number(out, value)?;
    put_labels(out, labels)?;
    put_names(out, route.as_slice())?;
    Ok(())
}

#[tactic(auto, unfolding(crate::specs::Messages::payload))]
pub fn put_read(out: &mut BytesMut, req: u64, journal: &Name, offset: u64) -> Result<(), AllocError>
    ensures { OnOk result
        (out.new.items ≡ out.old.items ++ payload (kinds.Read req journal.now offset)) }
{
    put_number(out, req)?;
    put_text(out, journal)?;
    put_number(out, offset)?;
    Ok(())
}

#[tactic(auto, unfolding(crate::specs::Messages::payload))]
pub fn put_read_done(
    out: &mut BytesMut,
    req: u64,
    journal: &Name,
    status: u64,
    offset: u64,
    content: &Blob,
    head: u64,
    route: &Names,
) -> Result<(), AllocError>
    ensures { OnOk result
        (out.new.items ≡ out.old.items
        ++ payload (kinds.ReadDone req journal.now status offset content.now head route.now)) }
{
    put_number(out, req)?;
    put_text(out, journal)?;
    put_number(out, status)?;
    put_number(out, offset)?;
    put_content(out, content)?;
    put_number(out, head)?;
    put_names(out, route.as_slice())?;
    Ok(())
}

#[tactic(auto, unfolding(crate::specs::Messages::payload))]
pub fn put_store_put(
    out: &mut BytesMut,
    req: u64,
    journal: &Name,
    begin: u64,
    end: u64,
    content: &Blob,
) -> Result<(), AllocError>
    ensures { OnOk result
        (out.new.items ≡ out.old.items
        ++ payload (kinds.StorePut req journal.now begin end content.now)) }
{
    put_number(out, req)?;
    put_text(out, journal)?;
    put_number(out, begin)?;
    put_number(out, end)?;
    put_content(out, content)?;
    Ok(())
}

#[tactic(auto, unfolding(crate::specs::Messages::payload))]
pub fn put_store_done(
    out: &mut BytesMut,
    req: u64,
    journal: &Name,
    begin: u64,
    end: u64,
) -> Result<(), AllocError>
    ensures { OnOk result
        (out.new.items ≡ out.old.items ++ payload (kinds.StoreDone req journal.now begin end)) }
{
    put_number(out, req)?;
    put_text(out, journal)?;
    put_number(out, begin)?;
    put_number(out, end)?;
    Ok(())
}

#[tactic(auto, unfolding(crate::specs::Messages::payload))]
pub fn put_store_get(
    out: &mut BytesMut,
    req: u64,
    journal: &Name,
    offset: u64,
) -> Result<(), AllocError>
    ensures { OnOk result
        (out.new.items ≡ out.old.items ++ payload (kinds.StoreGet req journal.now offset)) }
{
    put_number(out, req)?;
    put_text(out, journal)?;
    put_number(out, offset)?;
    Ok(())
}

#[tactic(auto, unfolding(crate::specs::Messages::payload))]
pub fn put_store_got(
    out: &mut BytesMut,
    req: u64,
    journal: &Name,
    status: u64,
    offset: u64,
    content: &Blob,
) -> Result<(), AllocError>
    ensures { OnOk result
        (out.new.items ≡ out.old.items
        ++ payload (kinds.StoreGot req journal.now status offset content.now)) }
{
    put_number(out, req)?;
    put_text(out, journal)?;
    put_number(out, status)?;
    put_number(out, offset)?;
    put_content(out, content)?;
    Ok(())
}

#[tactic(auto, unfolding(crate::specs::Messages::payload))]
pub fn put_store_list(out: &mut BytesMut, req: u64, journal: &Name) -> Result<(), AllocError>
    ensures { OnOk result
        (out.new.items ≡ out.old.items ++ payload (kinds.StoreList req journal.now)) }
{
    put_number(out, req)?;
    put_text(out, journal)?;
    Ok(())
}

#[tactic(auto, unfolding(crate::specs::Messages::payload))]
pub fn put_store_names(
    out: &mut BytesMut,
    req: u64,
    journal: &Name,
    names: &Names,
) -> Result<(), AllocError>
    ensures { OnOk result
        (out.new.items ≡ out.old.items ++ payload (kinds.StoreNames req journal.now names.now)) }
{
    put_number(out, req)?;
    put_text(out, journal)?;
    put_names(out, names.as_slice())?;
    Ok(())
}
