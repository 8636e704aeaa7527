//! What the mirror of the keys says of a journal.
ghost use Rattle.std.specs.Prelude.{◌≡◌, ◌++◌, IfOk};
ghost use Rattle.gz_broker.specs.Brokers.{number_or_zero, read_spec, route_of, route_with, spec_of, sync_of};
ghost use Rattle.gz_keyspace.specs.Formats.{ids_of, number_of};
ghost use Rattle.gz_spec.specs.Journals.{journal_of};

use gz_fields::FieldError;
use gz_keyspace::{Mirror, read_ids, read_sync};
use gz_label::{Blob, Name, NoMemory};
use gz_spec::{JournalSpec, read_journal};
use gz_wire::Names;
use std::alloc::Global;
use std::marker::Model;

/// The most bytes of a name.
const MAX_NAME: usize = 1024;

/// A route: its members, and its epoch, the revision at which it was written.
#[derive(Debug, Drop)]
pub struct RouteHeld {
    pub members: Names,
    pub epoch: u64,
}

impl Model for RouteHeld {
    ghost use Rattle.gz_broker.specs.Brokers.{RouteHeld};

    ghost Value = { RouteHeld };

    ghost view = { λ a. record { members = a.members; epoch = a.epoch } };
}

// The key of this prefix and a journal. One of more than 1,024 bytes is no name, and counts as out of memory.
fn key_of(alloc: Global, prefix: &str, journal: &Name) -> Result<Name, NoMemory>
    ensures { IfOk result (λ key. key ≡ prefix.now ++ journal.now) }
{
    let mut text = String::from_str(alloc, prefix)?;
    text.push_str(journal.as_str())?;
    if text.len() > MAX_NAME {
        return Err(NoMemory);
    }
    let key = Name::of(alloc, text.as_str())?;
    Ok(key)
}

// The specification that the text is, where it is one.
fn read_spec(alloc: Global, value: &Blob) -> Result<Option<JournalSpec>, NoMemory>
    ensures { IfOk result (λ spec. spec ≡ read_spec (journal_of value.now)) }
{
    match read_journal(alloc, value.as_slice()) {
        Ok(spec) => Ok(Some(spec)),
        Err(FieldError::NoMemory) => Err(NoMemory),
        Err(
            FieldError::NotJson
            | FieldError::BadField { .. }
            | FieldError::BadName { .. }
            | FieldError::BadNumber { .. }
            | FieldError::Unsupported { .. }
            | FieldError::Twice { .. },
        ) => Ok(None),
    }
}

/// The journal's specification; None where there is none that can be read.
pub fn spec_of(
    alloc: Global,
    mirror: &Mirror,
    journal: &Name,
) -> Result<Option<JournalSpec>, NoMemory>
    ensures { IfOk result (λ spec. spec ≡ spec_of journal.now mirror.now) }
{
    let key = key_of(alloc, "journal/", journal)?;
    match mirror.get(&key) {
        None => Ok(None),
        Some((value, _)) => {
            let spec = read_spec(alloc, value)?;
            Ok(spec)
        }
    }
}

// The route of this epoch whose members the text lists, where it lists some.
fn read_route(alloc: Global, epoch: u64, value: &Blob) -> Result<Option<RouteHeld>, NoMemory>
    ensures { IfOk result (λ route. route ≡ route_with epoch (ids_of value.now)) }
{
    match read_ids(alloc, value.as_slice())? {
        None => Ok(None),
        Some(ids) => Ok(Some(RouteHeld {
            members: Names::from_vec(ids.into_vec()),
            epoch,
        })),
    }
}

/// The journal's route; None where there is none that can be read.
pub fn route_of(
    alloc: Global,
    mirror: &Mirror,
    journal: &Name,
) -> Result<Option<RouteHeld>, NoMemory>
    ensures { IfOk result (λ route. route ≡ route_of journal.now mirror.now) }
{
    let key = key_of(alloc, "route/", journal)?;
    match mirror.get(&key) {
        None => Ok(None),
        Some((value, epoch)) => {
            let route = read_route(alloc, epoch, value)?;
            Ok(route)
        }
    }
}

// The epoch that the text says, or 0.
fn read_epoch(value: &Blob) -> u64
    ensures { result ≡ number_or_zero (number_of value.now) }
{
    match read_sync(value.as_slice()) {
        None => 0,
        Some(epoch) => epoch,
    }
}

/// The epoch that the journal's sync key has, 0 where it is absent.
pub fn sync_of(alloc: Global, mirror: &Mirror, journal: &Name) -> Result<u64, NoMemory>
    ensures { IfOk result (λ epoch. epoch ≡ sync_of journal.now mirror.now) }
{
    let key = key_of(alloc, "sync/", journal)?;
    match mirror.get(&key) {
        None => Ok(0),
        Some((value, _)) => Ok(read_epoch(value)),
    }
}
