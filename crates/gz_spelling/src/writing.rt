//! Writing the fields of a message, by its kind.
ghost use Rattle.std.specs.Prelude.{◌≡◌, ◌++◌, OnOk};
ghost use Rattle.gz_spelling.specs.Messages.{payload};

use crate::write_members::{
    put_adopt, put_adopted, put_head, put_held, put_promise, put_promised, put_refuse,
    put_replicate,
};
use crate::write_space::{
    put_ks_change, put_ks_grant, put_ks_granted, put_ks_since, put_ks_since_done, put_ks_txn,
    put_ks_txn_no, put_ks_txn_ok,
};
use crate::write_store::{
    put_append, put_append_done, put_read, put_read_done, put_store_done, put_store_get,
    put_store_got, put_store_list, put_store_names, put_store_put,
};
use bytes::BytesMut;
use gz_wire::Msg;
use std::alloc::AllocError;

/// Writes the message's fields.
pub fn put_fields(out: &mut BytesMut, msg: &Msg) -> Result<(), AllocError>
    ensures { OnOk result (out.new.items ≡ out.old.items ++ payload msg.now) }
{
    match msg {
        Msg::KsTxn {
            req,
            compares,
            writes,
        } => put_ks_txn(out, *req, compares, writes),
        Msg::KsTxnOk { req, revision } => put_ks_txn_ok(out, *req, *revision),
        Msg::KsTxnNo {
            req,
            status,
            key,
            revision,
        } => put_ks_txn_no(out, *req, *status, key, *revision),
        Msg::KsSince { req, after } => put_ks_since(out, *req, *after),
        Msg::KsSinceDone { req, head, changes } => put_ks_since_done(out, *req, *head, changes),
        Msg::KsChange { revision, writes } => put_ks_change(out, *revision, writes),
        Msg::KsGrant { req, key, value } => put_ks_grant(out, *req, key, value),
        Msg::KsGranted { req, lease } => put_ks_granted(out, *req, *lease),
        Msg::Promise { journal, epoch } => put_promise(out, journal, *epoch),
        Msg::Promised {
            journal,
            epoch,
            adopted,
            image,
        } => put_promised(out, journal, *epoch, *adopted, image),
        Msg::Adopt {
            journal,
            epoch,
            image,
        } => put_adopt(out, journal, *epoch, image),
        Msg::Adopted {
            journal,
            epoch,
            end,
        } => put_adopted(out, journal, *epoch, *end),
        Msg::Refuse {
            journal,
            epoch,
            code,
            value,
        } => put_refuse(out, journal, *epoch, *code, *value),
        Msg::Replicate {
            journal,
            epoch,
            offset,
            entry,
            head,
        } => put_replicate(out, journal, *epoch, *offset, entry, *head),
        Msg::Held {
            journal,
            epoch,
            end,
        } => put_held(out, journal, *epoch, *end),
        Msg::Head {
            journal,
            epoch,
            head,
            begin,
        } => put_head(out, journal, *epoch, *head, *begin),
        Msg::Append {
            req,
            journal,
            epoch,
            offset,
            selector,
            take,
            add,
            content,
        } => put_append(
            out, *req, journal, *epoch, *offset, selector, take, add, content,
        ),
        Msg::AppendDone {
            req,
            journal,
            status,
            begin,
            end,
            value,
            labels,
            route,
        } => put_append_done(
            out, *req, journal, *status, *begin, *end, *value, labels, route,
        ),
        Msg::Read {
            req,
            journal,
            offset,
        } => put_read(out, *req, journal, *offset),
        Msg::ReadDone {
            req,
            journal,
            status,
            offset,
            content,
            head,
            route,
        } => put_read_done(out, *req, journal, *status, *offset, content, *head, route),
        Msg::StorePut {
            req,
            journal,
            begin,
            end,
            content,
        } => put_store_put(out, *req, journal, *begin, *end, content),
        Msg::StoreDone {
            req,
            journal,
            begin,
            end,
        } => put_store_done(out, *req, journal, *begin, *end),
        Msg::StoreGet {
            req,
            journal,
            offset,
        } => put_store_get(out, *req, journal, *offset),
        Msg::StoreGot {
            req,
            journal,
            status,
            offset,
            content,
        } => put_store_got(out, *req, journal, *status, *offset, content),
        Msg::StoreList { req, journal } => put_store_list(out, *req, journal),
        Msg::StoreNames {
            req,
            journal,
            names,
        } => put_store_names(out, *req, journal, names),
    }
}
