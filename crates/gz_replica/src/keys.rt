//! What a primary asks the key space for.
ghost use Rattle.std.specs.Prelude.{◌≡◌, ◌++◌, ◌∷◌, [], IfOk, OnOk};
ghost use Rattle.gz_replica.specs.Opening.{keys, sync_txn};
ghost use Rattle.gz_replica.specs.Member.{send};

use crate::sends::push_one;
use gz_label::{Blob, Compare, KeyWrite, Name, NoMemory, Writes};
use gz_wire::{Compares, Msg, Sends};
use std::alloc::Global;

/// The most bytes of a name.
const MAX_NAME: usize = 1024;

/// The key of this prefix and a journal. One of more than 1,024 bytes is no name, and counts as out of memory.
fn key_of(alloc: Global, prefix: &str, journal: &Name) -> Result<Name, NoMemory>
    ensures { IfOk result (λ key. key ≡ prefix.now ++ journal.now) }
{
    let mut text = String::from_str(alloc, prefix)?;
    text.push_str(journal.as_str())?;
    if text.len() > MAX_NAME {
        return Err(NoMemory);
    }
    let key = Name::of(alloc, text.as_str())?;
    Ok(key)
}

/// The transaction of this number that writes the sync key of the journal, if its route is still of this epoch.
fn sync_msg(alloc: Global, journal: &Name, epoch: u64, req: u64) -> Result<Msg, NoMemory>
    ensures { IfOk result (λ msg. msg ≡ sync_txn journal.now epoch req) }
{
    let route_key = key_of(alloc, "route/", journal)?;
    let mut compares = Vec::new(alloc);
    compares.push(Compare {
        key: route_key,
        mod_revision: epoch,
    })?;
    let sync_key = key_of(alloc, "sync/", journal)?;
    let text = format!(in alloc; "{epoch}")?;
    let value = Blob::of(alloc, text.as_bytes())?;
    let mut writes = Vec::new(alloc);
    writes.push(KeyWrite {
        key: sync_key,
        value: Some(value),
    })?;
    Ok(Msg::KsTxn {
        req,
        compares: Compares::from_vec(compares),
        writes: Writes::from_vec(writes),
    })
}

/// The transaction to the key space, behind what is sent already.
pub fn push_ask_keys(
    sends: &mut Sends,
    alloc: Global,
    journal: &Name,
    epoch: u64,
    req: u64,
) -> Result<(), NoMemory>
    ensures { OnOk result
        (sends.new ≡ sends.old ++ send keys (sync_txn journal.now epoch req) ∷ []) }
{
    let to = Name::of(alloc, "keys")?;
    let msg = sync_msg(alloc, journal, epoch, req)?;
    push_one(sends, &to, msg)?;
    Ok(())
}

/// The transaction to the key space.
pub fn ask_keys(alloc: Global, journal: &Name, epoch: u64, req: u64) -> Result<Sends, NoMemory>
    ensures { IfOk result (λ sends. sends ≡ send keys (sync_txn journal.now epoch req) ∷ []) }
{
    let mut sends = Sends::new(alloc);
    push_ask_keys(&mut sends, alloc, journal, epoch, req)?;
    Ok(sends)
}
