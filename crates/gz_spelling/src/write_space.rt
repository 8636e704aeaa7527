//! Writing the fields of the key space's messages.
ghost use Rattle.std.specs.Prelude.{◌≡◌, ◌++◌, OnOk};
ghost use Rattle.gz_spelling.specs.Messages.{payload};
ghost use Rattle.gz_wire.specs.declared.msg.Msg.TheVariants as kinds;

use bytes::BytesMut;
use gz_codec::{put_changes, put_compares, put_content, put_number, put_text, put_writes};
use gz_label::{Blob, Changes, Name, Writes};
use gz_wire::Compares;
use std::alloc::AllocError;

#[tactic(auto, unfolding(crate::specs::Messages::payload))]
pub fn put_ks_txn(
    out: &mut BytesMut,
    req: u64,
    compares: &Compares,
    writes: &Writes,
) -> Result<(), AllocError>
    ensures { OnOk result
        (out.new.items ≡ out.old.items ++ payload (kinds.KsTxn req compares.now writes.now)) }
{
    put_number(out, req)?;
    put_compares(out, compares.as_slice())?;
    put_writes(out, writes.as_slice())?;
    Ok(())
}

#[tactic(auto, unfolding(crate::specs::Messages::payload))]
pub fn put_ks_txn_ok(out: &mut BytesMut, req: u64, revision: u64) -> Result<(), AllocError>
    ensures { OnOk result (out.new.items ≡ out.old.items ++ payload (kinds.KsTxnOk req revision)) }
{
    put_number(out, req)?;
    put_number(out, revision)?;
    Ok(())
}

#[tactic(auto, unfolding(crate::specs::Messages::payload))]
pub fn put_ks_txn_no(
    out: &mut BytesMut,
    req: u64,
    status: u64,
    key: &Name,
    revision: u64,
) -> Result<(), AllocError>
    ensures { OnOk result
        (out.new.items ≡ out.old.items ++ payload (kinds.KsTxnNo req status key.now revision)) }
{
    put_number(out, req)?;
    put_number(out, status)?;
    put_text(out, key)?;
    put_number(out, revision)?;
    Ok(())
}

#[tactic(auto, unfolding(crate::specs::Messages::payload))]
pub fn put_ks_since(out: &mut BytesMut, req: u64, after: u64) -> Result<(), AllocError>
    ensures { OnOk result (out.new.items ≡ out.old.items ++ payload (kinds.KsSince req after)) }
{
    put_number(out, req)?;
    put_number(out, after)?;
    Ok(())
}

#[tactic(auto, unfolding(crate::specs::Messages::payload))]
pub fn put_ks_since_done(
    out: &mut BytesMut,
    req: u64,
    head: u64,
    changes: &Changes,
) -> Result<(), AllocError>
    ensures { OnOk result
        (out.new.items ≡ out.old.items ++ payload (kinds.KsSinceDone req head changes.now)) }
{
    put_number(out, req)?;
    put_number(out, head)?;
    put_changes(out, changes.as_slice())?;
    Ok(())
}

#[tactic(auto, unfolding(crate::specs::Messages::payload))]
pub fn put_ks_change(out: &mut BytesMut, revision: u64, writes: &Writes) -> Result<(), AllocError>
    ensures { OnOk result
        (out.new.items ≡ out.old.items ++ payload (kinds.KsChange revision writes.now)) }
{
    put_number(out, revision)?;
    put_writes(out, writes.as_slice())?;
    Ok(())
}

#[tactic(auto, unfolding(crate::specs::Messages::payload))]
pub fn put_ks_grant(
    out: &mut BytesMut,
    req: u64,
    key: &Name,
    value: &Blob,
) -> Result<(), AllocError>
    ensures { OnOk result
        (out.new.items ≡ out.old.items ++ payload (kinds.KsGrant req key.now value.now)) }
{
    put_number(out, req)?;
    put_text(out, key)?;
    put_content(out, value)?;
    Ok(())
}

#[tactic(auto, unfolding(crate::specs::Messages::payload))]
pub fn put_ks_granted(out: &mut BytesMut, req: u64, lease: u64) -> Result<(), AllocError>
    ensures { OnOk result (out.new.items ≡ out.old.items ++ payload (kinds.KsGranted req lease)) }
{
    put_number(out, req)?;
    put_number(out, lease)?;
    Ok(())
}
