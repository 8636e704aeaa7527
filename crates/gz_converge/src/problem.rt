//! What is to be placed, and where it is now.
ghost use Rattle.std.specs.Prelude.{◌≡◌, ◌+◌, ◌++◌, map, filter, flat_map, true, IfOk, OnOk};
ghost use Rattle.gz_alloc.specs.Ascending.{ascending};
ghost use Rattle.gz_alloc.specs.Names.{is_problem};
ghost use Rattle.gz_converge.specs.Cases.{ids_in, within};
ghost use Rattle.gz_converge.specs.Converged.{is_of_kind, holders, holder as holder_of, ids, journal_item, shard_item, is_enabled, pairs_of, journals_asked, shards_asked, routes_now, lists_now};

use crate::cases::ids_in;
use crate::ids::is_in;
use crate::view::{JournalView, KeyView, MemberView, ShardView};
use gz_alloc::{Item, Member, Placement};
use gz_label::{Name, NoMemory};
use gz_spec::{JournalSpec, MemberSpec, ShardSpec};
use std::alloc::Global;

// Whether the member is a consumer, or else a broker.
fn is_of_kind(consumers: bool, member: &MemberView) -> bool
    ensures { result ≡ is_of_kind consumers member.now }
{
    if consumers {
        member.joined.consumer
    } else {
        !member.joined.consumer
    }
}

// The member's limit.
fn limit_of(spec: &MemberSpec) -> u16
    ensures { result ≡ spec.now.limit }
{
    spec.limit as u16
}

// A member as one that holds items.
fn holder(member: &MemberView) -> Result<Member, NoMemory>
    ensures { IfOk result (λ holder. holder ≡ holder_of member.now) }
{
    let spec = &member.joined.spec;
    Ok(Member {
        name: spec.id.copy()?,
        zone: spec.zone.copy()?,
        limit: limit_of(spec),
    })
}

/// The consumers, or else the brokers, as holders of items.
pub fn holders(
    alloc: Global,
    consumers: bool,
    members: &[MemberView],
) -> Result<Vec<Member>, NoMemory>
    ensures { IfOk result (λ found. found.items ≡ map holder_of (holders consumers members.now)) }
{
    let mut found = Vec::new(alloc);
    for member in members {
        if is_of_kind(consumers, member) {
            let one = holder(member)?;
            found.push(one)?;
        }
    }
    Ok(found)
}

// The ids of the consumers, or else of the brokers.
fn holder_ids(alloc: Global, consumers: bool, members: &[MemberView]) -> Result<Vec<Name>, NoMemory>
    ensures { IfOk result (λ names. names.items ≡ ids (holders consumers members.now)) }
{
    let mut names = Vec::new(alloc);
    for member in members {
        if is_of_kind(consumers, member) {
            let id = member.joined.spec.id.copy()?;
            names.push(id)?;
        }
    }
    Ok(names)
}

/// The ids of all members.
pub fn member_ids(alloc: Global, members: &[MemberView]) -> Result<Vec<Name>, NoMemory>
    ensures { IfOk result (λ names. names.items ≡ ids members.now) }
{
    let mut names = Vec::new(alloc);
    for member in members {
        let id = member.joined.spec.id.copy()?;
        names.push(id)?;
    }
    Ok(names)
}

// On how many brokers the journal is to be.
fn replicas_of(spec: &JournalSpec) -> u8
    ensures { result ≡ spec.now.replication }
{
    spec.replication as u8
}

// On how many consumers the shard is to be: its standbys and one more.
fn consumers_of(spec: &ShardSpec) -> u8
    ensures { result ≡ 1 + spec.now.hot_standbys }
{
    let standbys = spec.hot_standbys as u8;
    1 + standbys
}

// A journal as an item.
fn journal_item(journal: &JournalView) -> Result<Item, NoMemory>
    ensures { IfOk result (λ item. item ≡ journal_item journal.now) }
{
    let spec = &journal.spec;
    Ok(Item {
        name: spec.name.copy()?,
        replicas: replicas_of(spec),
    })
}

// A shard as an item.
fn shard_item(shard: &ShardView) -> Result<Item, NoMemory>
    ensures { IfOk result (λ item. item ≡ shard_item shard.now) }
{
    let spec = &shard.spec;
    Ok(Item {
        name: spec.id.copy()?,
        replicas: consumers_of(spec),
    })
}

/// The journals as items.
pub fn journal_items(alloc: Global, journals: &[JournalView]) -> Result<Vec<Item>, NoMemory>
    ensures { IfOk result (λ items. items.items ≡ map journal_item journals.now) }
{
    let mut items = Vec::new(alloc);
    for journal in journals {
        let item = journal_item(journal)?;
        items.push(item)?;
    }
    Ok(items)
}

/// The shards that aren't disabled, as items.
pub fn shard_items(alloc: Global, shards: &[ShardView]) -> Result<Vec<Item>, NoMemory>
    ensures { IfOk result (λ items. items.items ≡ map shard_item (filter is_enabled shards.now)) }
{
    let mut items = Vec::new(alloc);
    for shard in shards {
        if !shard.spec.disable {
            let item = shard_item(shard)?;
            items.push(item)?;
        }
    }
    Ok(items)
}

// Puts the pairs of the list with these members at the end.
fn push_pairs(
    pairs: &mut Vec<(Name, Name)>,
    members: &[Name],
    name: &Name,
    listed: &[Name],
) -> Result<(), NoMemory>
    ensures { OnOk result
        (pairs.new.items ≡ pairs.old.items ++ map
        (λ m. (name.now, m)) (within members.now listed.now)) }
{
    for member in members {
        if is_in(member, listed) {
            let pair = (name.copy()?, member.copy()?);
            pairs.push(pair)?;
        }
    }
    Ok(())
}

// Puts the pairs of the route with these brokers at the end.
fn push_route(
    pairs: &mut Vec<(Name, Name)>,
    brokers: &[Name],
    journal: &JournalView,
) -> Result<(), NoMemory>
    ensures { OnOk result
        (pairs.new.items
        ≡ pairs.old.items ++ pairs_of brokers.now journal.now.spec.name journal.now.route) }
{
    let listed = ids_in(&journal.route);
    push_pairs(pairs, brokers, &journal.spec.name, listed)?;
    Ok(())
}

// Puts the pairs of the list with these consumers at the end.
fn push_list(
    pairs: &mut Vec<(Name, Name)>,
    consumers: &[Name],
    shard: &ShardView,
) -> Result<(), NoMemory>
    ensures { OnOk result
        (pairs.new.items
        ≡ pairs.old.items ++ pairs_of consumers.now shard.now.spec.id shard.now.list) }
{
    let listed = ids_in(&shard.list);
    push_pairs(pairs, consumers, &shard.spec.id, listed)?;
    Ok(())
}

// The pairs of the routes with these brokers.
fn route_pairs(
    alloc: Global,
    brokers: &[Name],
    journals: &[JournalView],
) -> Result<Vec<(Name, Name)>, NoMemory>
    ensures { IfOk result
        (λ pairs. pairs.items ≡ flat_map
        (λ j. pairs_of brokers.now j.spec.name j.route) journals.now) }
{
    let mut pairs = Vec::new(alloc);
    for journal in journals {
        push_route(&mut pairs, brokers, journal)?;
    }
    Ok(pairs)
}

// The pairs of the lists with these consumers, of the shards that aren't disabled.
fn list_pairs(
    alloc: Global,
    consumers: &[Name],
    shards: &[ShardView],
) -> Result<Vec<(Name, Name)>, NoMemory>
    ensures { IfOk result
        (λ pairs. pairs.items ≡ flat_map
        (λ s. pairs_of consumers.now s.spec.id s.list) (filter is_enabled shards.now)) }
{
    let mut pairs = Vec::new(alloc);
    for shard in shards {
        if !shard.spec.disable {
            push_list(&mut pairs, consumers, shard)?;
        }
    }
    Ok(pairs)
}

// The placement of pairs that are in ascending order.
fn in_order(alloc: Global, pairs: Vec<(Name, Name)>) -> Placement
    requires { ascending pairs.items ≡ true }
    ensures { result ≡ pairs.items }
{
    match Placement::of(pairs) {
        Some(placement) => placement,
        None => Placement::none(alloc),
    }
}

/// Where the journals are now.

pub fn routes_now(alloc: Global, view: &KeyView) -> Result<Placement, NoMemory>
    requires { is_problem (journals_asked view.now) ≡ true }
    ensures { IfOk result (λ now. now ≡ routes_now view.now) }
{
    let brokers = holder_ids(alloc, false, view.members())?;
    let pairs = route_pairs(alloc, brokers.as_slice(), view.journals())?;
    Ok(in_order(alloc, pairs))
}

/// Where the shards that aren't disabled are now.

pub fn lists_now(alloc: Global, view: &KeyView) -> Result<Placement, NoMemory>
    requires { is_problem (shards_asked view.now) ≡ true }
    ensures { IfOk result (λ now. now ≡ lists_now view.now) }
{
    let consumers = holder_ids(alloc, true, view.members())?;
    let pairs = list_pairs(alloc, consumers.as_slice(), view.shards())?;
    Ok(in_order(alloc, pairs))
}
