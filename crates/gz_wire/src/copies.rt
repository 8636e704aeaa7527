//! Copies of messages: a function for each kind, so that no function is proved for all kinds at once.
ghost use Rattle.std.specs.Prelude.{◌≡◌, IfOk};
ghost use Rattle.gz_wire.specs.declared.msg.Msg.TheVariants as kinds;

use crate::{Compares, Msg, Names};
use gz_label::{Blob, Changes, Entry, Image, LabelSet, Name, NoMemory, Writes};

pub fn copy_ks_txn(req: u64, compares: &Compares, writes: &Writes) -> Result<Msg, NoMemory>
    ensures { IfOk result (λ msg. msg ≡ kinds.KsTxn req compares.now writes.now) }
{
    Ok(Msg::KsTxn {
        req,
        compares: compares.copy()?,
        writes: writes.copy()?,
    })
}

pub fn copy_ks_txn_no(req: u64, status: u64, key: &Name, revision: u64) -> Result<Msg, NoMemory>
    ensures { IfOk result (λ msg. msg ≡ kinds.KsTxnNo req status key.now revision) }
{
    Ok(Msg::KsTxnNo {
        req,
        status,
        key: key.copy()?,
        revision,
    })
}

pub fn copy_ks_since_done(req: u64, head: u64, changes: &Changes) -> Result<Msg, NoMemory>
    ensures { IfOk result (λ msg. msg ≡ kinds.KsSinceDone req head changes.now) }
{
    Ok(Msg::KsSinceDone {
        req,
        head,
        changes: changes.copy()?,
    })
}

pub fn copy_ks_change(revision: u64, writes: &Writes) -> Result<Msg, NoMemory>
    ensures { IfOk result (λ msg. msg ≡ kinds.KsChange revision writes.now) }
{
    Ok(Msg::KsChange {
        revision,
        writes: writes.copy()?,
    })
}

pub fn copy_ks_grant(req: u64, key: &Name, value: &Blob) -> Result<Msg, NoMemory>
    ensures { IfOk result (λ msg. msg ≡ kinds.KsGrant req key.now value.now) }
{
    Ok(Msg::KsGrant {
        req,
        key: key.copy()?,
        value: value.copy()?,
    })
}

pub fn copy_promise(journal: &Name, epoch: u64) -> Result<Msg, NoMemory>
    ensures { IfOk result (λ msg. msg ≡ kinds.Promise journal.now epoch) }
{
    Ok(Msg::Promise {
        journal: journal.copy()?,
        epoch,
    })
}

pub fn copy_promised(
    journal: &Name,
    epoch: u64,
    adopted: u64,
    image: &Image,
) -> Result<Msg, NoMemory>
    ensures { IfOk result (λ msg. msg ≡ kinds.Promised journal.now epoch adopted image.now) }
{
    Ok(Msg::Promised {
        journal: journal.copy()?,
        epoch,
        adopted,
        image: image.copy()?,
    })
}

pub fn copy_adopt(journal: &Name, epoch: u64, image: &Image) -> Result<Msg, NoMemory>
    ensures { IfOk result (λ msg. msg ≡ kinds.Adopt journal.now epoch image.now) }
{
    Ok(Msg::Adopt {
        journal: journal.copy()?,
        epoch,
        image: image.copy()?,
    })
}

pub fn copy_adopted(journal: &Name, epoch: u64, end: u64) -> Result<Msg, NoMemory>
    ensures { IfOk result (λ msg. msg ≡ kinds.Adopted journal.now epoch end) }
{
    Ok(Msg::Adopted {
        journal: journal.copy()?,
        epoch,
        end,
    })
}

pub fn copy_refuse(journal: &Name, epoch: u64, code: u64, value: u64) -> Result<Msg, NoMemory>
    ensures { IfOk result (λ msg. msg ≡ kinds.Refuse journal.now epoch code value) }
{
    Ok(Msg::Refuse {
        journal: journal.copy()?,
        epoch,
        code,
        value,
    })
}

pub fn copy_replicate(
    journal: &Name,
    epoch: u64,
    offset: u64,
    entry: &Entry,
    head: u64,
) -> Result<Msg, NoMemory>
    ensures { IfOk result (λ msg. msg ≡ kinds.Replicate journal.now epoch offset entry.now head) }
{
    Ok(Msg::Replicate {
        journal: journal.copy()?,
        epoch,
        offset,
        entry: entry.copy()?,
        head,
    })
}

pub fn copy_held(journal: &Name, epoch: u64, end: u64) -> Result<Msg, NoMemory>
    ensures { IfOk result (λ msg. msg ≡ kinds.Held journal.now epoch end) }
{
    Ok(Msg::Held {
        journal: journal.copy()?,
        epoch,
        end,
    })
}

pub fn copy_head(journal: &Name, epoch: u64, head: u64, begin: u64) -> Result<Msg, NoMemory>
    ensures { IfOk result (λ msg. msg ≡ kinds.Head journal.now epoch head begin) }
{
    Ok(Msg::Head {
        journal: journal.copy()?,
        epoch,
        head,
        begin,
    })
}

pub fn copy_append(
    req: u64,
    journal: &Name,
    epoch: Option<u64>,
    offset: Option<u64>,
    selector: &Name,
    take: &LabelSet,
    add: &LabelSet,
    content: &Blob,
) -> Result<Msg, NoMemory>
    ensures { IfOk result
        (λ msg. msg ≡ kinds.Append req journal.now epoch offset selector.now take.now add.now content.now) }
{
    Ok(Msg::Append {
        req,
        journal: journal.copy()?,
        epoch,
        offset,
        selector: selector.copy()?,
        take: take.copy()?,
        add: add.copy()?,
        content: content.copy()?,
    })
}

pub fn copy_append_done(
    req: u64,
    journal: &Name,
    status: u64,
    begin: u64,
    end: u64,
    value: u64,
    labels: &LabelSet,
    route: &Names,
) -> Result<Msg, NoMemory>
    ensures { IfOk result
        (λ msg. msg ≡ kinds.AppendDone req journal.now status begin end value labels.now route.now) }
{
    Ok(Msg::AppendDone {
        req,
        journal: journal.copy()?,
        status,
        begin,
        end,
        value,
        labels: labels.copy()?,
        route: route.copy()?,
    })
}

pub fn copy_read(req: u64, journal: &Name, offset: u64) -> Result<Msg, NoMemory>
    ensures { IfOk result (λ msg. msg ≡ kinds.Read req journal.now offset) }
{
    Ok(Msg::Read {
        req,
        journal: journal.copy()?,
        offset,
    })
}

pub fn copy_read_done(
    req: u64,
    journal: &Name,
    status: u64,
    offset: u64,
    content: &Blob,
    head: u64,
    route: &Names,
) -> Result<Msg, NoMemory>
    ensures { IfOk result
        (λ msg. msg ≡ kinds.ReadDone req journal.now status offset content.now head route.now) }
{
    Ok(Msg::ReadDone {
        req,
        journal: journal.copy()?,
        status,
        offset,
        content: content.copy()?,
        head,
        route: route.copy()?,
    })
}

pub fn copy_store_put(
    req: u64,
    journal: &Name,
    begin: u64,
    end: u64,
    content: &Blob,
) -> Result<Msg, NoMemory>
    ensures { IfOk result (λ msg. msg ≡ kinds.StorePut req journal.now begin end content.now) }
{
    Ok(Msg::StorePut {
        req,
        journal: journal.copy()?,
        begin,
        end,
        content: content.copy()?,
    })
}

pub fn copy_store_done(req: u64, journal: &Name, begin: u64, end: u64) -> Result<Msg, NoMemory>
    ensures { IfOk result (λ msg. msg ≡ kinds.StoreDone req journal.now begin end) }
{
    Ok(Msg::StoreDone {
        req,
        journal: journal.copy()?,
        begin,
        end,
    })
}

pub fn copy_store_get(req: u64, journal: &Name, offset: u64) -> Result<Msg, NoMemory>
    ensures { IfOk result (λ msg. msg ≡ kinds.StoreGet req journal.now offset) }
{
    Ok(Msg::StoreGet {
        req,
        journal: journal.copy()?,
        offset,
    })
}

pub fn copy_store_got(
    req: u64,
    journal: &Name,
    status: u64,
    offset: u64,
    content: &Blob,
) -> Result<Msg, NoMemory>
    ensures { IfOk result (λ msg. msg ≡ kinds.StoreGot req journal.now status offset content.now) }
{
    Ok(Msg::StoreGot {
        req,
        journal: journal.copy()?,
        status,
        offset,
        content: content.copy()?,
    })
}

pub fn copy_store_list(req: u64, journal: &Name) -> Result<Msg, NoMemory>
    ensures { IfOk result (λ msg. msg ≡ kinds.StoreList req journal.now) }
{
    Ok(Msg::StoreList {
        req,
        journal: journal.copy()?,
    })
}

pub fn copy_store_names(req: u64, journal: &Name, names: &Names) -> Result<Msg, NoMemory>
    ensures { IfOk result (λ msg. msg ≡ kinds.StoreNames req journal.now names.now) }
{
    Ok(Msg::StoreNames {
        req,
        journal: journal.copy()?,
        names: names.copy()?,
    })
}
