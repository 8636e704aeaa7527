//! What becomes of a route, and of a shard's list.
ghost use Rattle.std.specs.Prelude.{◌≡◌, ◌++◌, IfOk};
ghost use Rattle.gz_converge.specs.Cases.{without, is_synced, ids_in, settled_route, changed_route, next_route, new_list, next_list};

use crate::ids::{are_within, same_ids, within, without};
use crate::view::{Listed, Synced};
use gz_keyspace::Ids;
use gz_label::{Name, NoMemory};
use std::alloc::Global;

// Whether the sync key says the epoch.
fn is_synced(sync: &Option<Synced>, epoch: u64) -> bool
    ensures { result ≡ is_synced sync.now epoch }
{
    match sync {
        None => false,
        Some(sync) => sync.epoch == epoch,
    }
}

/// The members of a list, none where there is no key.
pub fn ids_in(list: &Option<Listed>) -> &[Name]
    ensures { result.now ≡ ids_in list.now }
{
    match list {
        None => &[],
        Some(list) => list.ids.as_slice(),
    }
}

// These ids, and then those of the placed ones that aren't in the route.
fn joined(
    alloc: Global,
    mut ids: Vec<Name>,
    placed: &[Name],
    route: &[Name],
) -> Result<Ids, NoMemory>
    ensures { IfOk result (λ new. new ≡ ids.items ++ without placed.now route.now) }
{
    let mut more = without(alloc, placed, route)?;
    ids.append(&mut more)?;
    Ok(Ids::from_vec(ids))
}

// What becomes of a route whose members all have their keys.
fn settled_route(
    alloc: Global,
    placed: &[Name],
    route: &[Name],
    synced: bool,
) -> Result<Option<Ids>, NoMemory>
    ensures { IfOk result (λ next. next ≡ settled_route placed.now route.now synced) }
{
    if !synced {
        return Ok(None);
    }
    if !are_within(placed, route) {
        let old = copied(alloc, route)?;
        let new = joined(alloc, old, placed, route)?;
        return Ok(Some(new));
    }
    if !are_within(route, placed) {
        let kept = within(alloc, route, placed)?;
        return Ok(Some(Ids::from_vec(kept)));
    }
    Ok(None)
}

// Copies of the ids.
fn copied(alloc: Global, ids: &[Name]) -> Result<Vec<Name>, NoMemory>
    ensures { IfOk result (λ copied. copied.items ≡ ids.now) }
{
    let mut copied = Vec::new(alloc);
    for id in ids {
        let id = id.copy()?;
        copied.push(id)?;
    }
    Ok(copied)
}

// What becomes of a route.
fn changed_route(
    alloc: Global,
    members: &[Name],
    placed: &[Name],
    route: &[Name],
    synced: bool,
) -> Result<Option<Ids>, NoMemory>
    ensures { IfOk result (λ next. next ≡ changed_route members.now placed.now route.now synced) }
{
    if !are_within(route, members) {
        let kept = within(alloc, route, members)?;
        let new = joined(alloc, kept, placed, route)?;
        return Ok(Some(new));
    }
    let next = settled_route(alloc, placed, route, synced)?;
    Ok(next)
}

/// A journal's next route, None where it stays, from the members that have their keys and those on which the journal is
/// placed.
pub fn next_route(
    alloc: Global,
    members: &[Name],
    placed: &[Name],
    route: &Option<Listed>,
    sync: &Option<Synced>,
) -> Result<Option<Ids>, NoMemory>
    ensures { IfOk result (λ next. next ≡ next_route members.now placed.now route.now sync.now) }
{
    if placed.is_empty() {
        return Ok(None);
    }
    match route {
        None => {
            let new = copied(alloc, placed)?;
            Ok(Some(Ids::from_vec(new)))
        }
        Some(route) => {
            let synced = is_synced(sync, route.revision);
            let next = changed_route(alloc, members, placed, route.ids.as_slice(), synced)?;
            Ok(next)
        }
    }
}

// The members that stay placed, in the old order, and then the others that are placed.
fn new_list(alloc: Global, placed: &[Name], old: &[Name]) -> Result<Ids, NoMemory>
    ensures { IfOk result (λ new. new ≡ new_list placed.now old.now) }
{
    let kept = within(alloc, old, placed)?;
    let new = joined(alloc, kept, placed, old)?;
    Ok(new)
}

/// A shard's next list, None where it stays, from the consumers on which the shard is placed.
pub fn next_list(
    alloc: Global,
    placed: &[Name],
    list: &Option<Listed>,
) -> Result<Option<Ids>, NoMemory>
    ensures { IfOk result (λ next. next ≡ next_list placed.now list.now) }
{
    let old = ids_in(list);
    let new = new_list(alloc, placed, old)?;
    if same_ids(new.as_slice(), old) {
        Ok(None)
    } else {
        Ok(Some(new))
    }
}
