//! Reading the fields of a message, by its kind.
ghost use Rattle.gz_codec.specs.Reading.{Gives};
ghost use Rattle.gz_spelling.specs.Messages.{message_at};

use crate::read_members::{
    adopt_in, adopted_in, head_in, held_in, promise_in, promised_in, refuse_in, replicate_in,
};
use crate::read_space::{
    ks_change_in, ks_grant_in, ks_granted_in, ks_since_done_in, ks_since_in, ks_txn_in,
    ks_txn_no_in, ks_txn_ok_in,
};
use crate::read_store::{
    append_done_in, append_in, read_done_in, read_in, store_done_in, store_get_in, store_got_in,
    store_list_in, store_names_in, store_put_in,
};
use gz_codec::FieldError;
use gz_wire::{Kind, Msg};
use std::alloc::Global;

/// The message of the kind whose fields are all of the bytes.
pub fn message_at(alloc: Global, kind: Kind, bytes: &[u8]) -> Result<Msg, FieldError>
    ensures { Gives (λ msg. msg) result (message_at kind bytes.now) }
{
    match kind {
        Kind::KsTxn => ks_txn_in(alloc, bytes),
        Kind::KsTxnOk => ks_txn_ok_in(bytes),
        Kind::KsTxnNo => ks_txn_no_in(alloc, bytes),
        Kind::KsSince => ks_since_in(bytes),
        Kind::KsSinceDone => ks_since_done_in(alloc, bytes),
        Kind::KsChange => ks_change_in(alloc, bytes),
        Kind::KsGrant => ks_grant_in(alloc, bytes),
        Kind::KsGranted => ks_granted_in(bytes),
        Kind::Promise => promise_in(alloc, bytes),
        Kind::Promised => promised_in(alloc, bytes),
        Kind::Adopt => adopt_in(alloc, bytes),
        Kind::Adopted => adopted_in(alloc, bytes),
        Kind::Refuse => refuse_in(alloc, bytes),
        Kind::Replicate => replicate_in(alloc, bytes),
        Kind::Held => held_in(alloc, bytes),
        Kind::Head => head_in(alloc, bytes),
        Kind::Append => append_in(alloc, bytes),
        Kind::AppendDone => append_done_in(alloc, bytes),
        Kind::Read => read_in(alloc, bytes),
        Kind::ReadDone => read_done_in(alloc, bytes),
        Kind::StorePut => store_put_in(alloc, bytes),
        Kind::StoreDone => store_done_in(alloc, bytes),
        Kind::StoreGet => store_get_in(alloc, bytes),
        Kind::StoreGot => store_got_in(alloc, bytes),
        Kind::StoreList => store_list_in(alloc, bytes),
        Kind::StoreNames => store_names_in(alloc, bytes),
    }
}
