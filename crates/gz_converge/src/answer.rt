//! A converge.
ghost use Rattle.std.specs.Prelude.{◌≡◌, ◌++◌, filter, filter_map, option_map, map, IfOk, OnOk, [], ◌∷◌, Some, None, true, false, if◌then◌else◌};
ghost use Rattle.std.specs.List.{cons_option};
ghost use Rattle.std.specs.Ordering.{nat_cmp, is_lt, is_le};
ghost use Rattle.std.specs.Cmp.Lexicographic.{slice_cmp};
ghost use Rattle.gz_keyspace.specs.Keys.{same_key};
ghost use Rattle.gz_alloc.specs.Names.{Asked, is_problem};
ghost use Rattle.gz_converge.specs.Views.{View};
ghost use Rattle.gz_converge.specs.Cases.{next_route, next_list};
ghost use Rattle.gz_converge.specs.Converged.{ids, IsPlaced, Converges, journals_asked, shards_asked, routes_now, lists_now, placed_on, revision_of, txn_of, journal_txn, shard_txn, journal_txns, shard_txns, txns_of};

use crate::cases::{next_list, next_route};
use crate::ids::ids_text;
use crate::problem::{holders, journal_items, lists_now, member_ids, routes_now, shard_items};
use crate::read::{assign_key, route_key};
use crate::txn::{Txn, Txns};
use crate::view::{JournalView, KeyView, Listed, ShardView};
use gz_alloc::{Placement, Problem, place};
use gz_keyspace::Ids;
use gz_label::{Compare, KeyWrite, Name, NoMemory};
use gz_spec::{JournalSpec, ShardSpec};
use std::alloc::Global;

/// What a converge answers: the transactions, for the journals in the order of their names and then for the shards in
/// that of their ids; the placement of the journals, which is the goal of the next converge; and that of the shards.
#[derive(Drop)]
pub struct Converged {
    pub txns: Txns,
    pub goal: Placement,
    pub shards: Placement,
}

// The pairs of the name. They stand side by side, so that they are found by two searches.
fn named<'a>(placed: &'a Placement, name: &Name) -> &'a [(Name, Name)]
    ensures { result.now ≡ filter (λ p. same_key name.now p.0) placed.now }
{
    let pairs = placed.pairs();
    let is_below = |pair: &(Name, Name)| -> bool
        ensures { result ≡ is_lt (slice_cmp nat_cmp pair.now.0 name.entry.now) }
    { pair.0.cmp(name).is_lt() };
    let start = pairs.partition_point(is_below);
    let is_within = |pair: &(Name, Name)| -> bool
        ensures { result ≡ is_le (slice_cmp nat_cmp pair.now.0 name.entry.now) }
    { pair.0.cmp(name).is_le() };
    let end = pairs.partition_point(is_within);
    &pairs[start..end]
}

// The members of the pairs.
fn members_of(alloc: Global, pairs: &[(Name, Name)]) -> Result<Vec<Name>, NoMemory>
    ensures { IfOk result (λ members. members.items ≡ map (λ p. p.1) pairs.now) }
{
    let mut members = Vec::new(alloc);
    for pair in pairs {
        let member = pair.1.copy()?;
        members.push(member)?;
    }
    Ok(members)
}

// The members on which the name is placed, in the order of the pairs.
fn placed_on(alloc: Global, placed: &Placement, name: &Name) -> Result<Vec<Name>, NoMemory>
    ensures { IfOk result (λ members. members.items ≡ placed_on placed.now name.now) }
{
    let pairs = named(placed, name);
    let members = members_of(alloc, pairs)?;
    Ok(members)
}

// The brokers on which a journal is placed.
fn journal_brokers(
    alloc: Global,
    placed: &Placement,
    spec: &JournalSpec,
) -> Result<Vec<Name>, NoMemory>
    ensures { IfOk result (λ brokers. brokers.items ≡ placed_on placed.now spec.now.name) }
{
    let brokers = placed_on(alloc, placed, &spec.name)?;
    Ok(brokers)
}

// The consumers on which a shard is placed.
fn shard_consumers(
    alloc: Global,
    placed: &Placement,
    spec: &ShardSpec,
) -> Result<Vec<Name>, NoMemory>
    ensures { IfOk result (λ consumers. consumers.items ≡ placed_on placed.now spec.now.id) }
{
    let consumers = placed_on(alloc, placed, &spec.id)?;
    Ok(consumers)
}

// The revision of a list, 0 where there is no key.
fn revision_of(list: &Option<Listed>) -> u64
    ensures { result ≡ revision_of list.now }
{
    match list {
        None => 0,
        Some(list) => list.revision,
    }
}

// The transaction that puts a list at the key, which is as it was seen.
fn txn_of(alloc: Global, key: Name, old: &Option<Listed>, new: &Ids) -> Result<Txn, NoMemory>
    ensures { IfOk result (λ txn. txn ≡ txn_of key old.now new.now) }
{
    let compare = Compare {
        key: key.copy()?,
        mod_revision: revision_of(old),
    };
    let value = ids_text(alloc, new.as_slice())?;
    let write = KeyWrite {
        key,
        value: Some(value),
    };
    Ok(Txn { compare, write })
}

// The transaction of a journal, where its route changes.
fn journal_txn(
    alloc: Global,
    members: &[Name],
    placed: &Placement,
    journal: &JournalView,
) -> Result<Option<Txn>, NoMemory>
    ensures { IfOk result (λ txn. txn ≡ journal_txn members.now placed.now journal.now) }
{
    let on = journal_brokers(alloc, placed, &journal.spec)?;
    let next = next_route(alloc, members, on.as_slice(), &journal.route, &journal.sync)?;
    let Some(new) = next else {
        return Ok(None);
    };
    let key = route_key(alloc, &journal.spec)?;
    let txn = txn_of(alloc, key, &journal.route, &new)?;
    Ok(Some(txn))
}

// The transaction of a shard, where its list changes.
fn shard_txn(alloc: Global, placed: &Placement, shard: &ShardView) -> Result<Option<Txn>, NoMemory>
    ensures { IfOk result (λ txn. txn ≡ shard_txn placed.now shard.now) }
{
    let on = shard_consumers(alloc, placed, &shard.spec)?;
    let next = next_list(alloc, on.as_slice(), &shard.list)?;
    let Some(new) = next else {
        return Ok(None);
    };
    let key = assign_key(alloc, &shard.spec)?;
    let txn = txn_of(alloc, key, &shard.list, &new)?;
    Ok(Some(txn))
}

// Puts the transaction of a journal at the end, where its route changes.
fn push_journal_txn(
    alloc: Global,
    txns: &mut Vec<Txn>,
    members: &[Name],
    placed: &Placement,
    journal: &JournalView,
) -> Result<(), NoMemory>
    ensures { OnOk result
        (txns.new.items
        ≡ txns.old.items ++ cons_option (journal_txn members.now placed.now journal.now) []) }
{
    if let Some(txn) = journal_txn(alloc, members, placed, journal)? {
        txns.push(txn)?;
    }
    Ok(())
}

// The transactions of the journals.
fn journal_txns(
    alloc: Global,
    members: &[Name],
    placed: &Placement,
    journals: &[JournalView],
) -> Result<Vec<Txn>, NoMemory>
    ensures { IfOk result
        (λ txns. txns.items ≡ filter_map (journal_txn members.now placed.now) journals.now) }
{
    let mut txns = Vec::new(alloc);
    for journal in journals {
        push_journal_txn(alloc, &mut txns, members, placed, journal)?;
    }
    Ok(txns)
}

// Puts the transaction of a shard at the end, where its list changes.
fn push_shard_txn(
    alloc: Global,
    txns: &mut Vec<Txn>,
    placed: &Placement,
    shard: &ShardView,
) -> Result<(), NoMemory>
    ensures { OnOk result
        (txns.new.items ≡ txns.old.items ++ cons_option (shard_txn placed.now shard.now) []) }
{
    if let Some(txn) = shard_txn(alloc, placed, shard)? {
        txns.push(txn)?;
    }
    Ok(())
}

// The transactions of the shards.
fn shard_txns(alloc: Global, placed: &Placement, shards: &[ShardView]) -> Result<Vec<Txn>, NoMemory>
    ensures { IfOk result (λ txns. txns.items ≡ filter_map (shard_txn placed.now) shards.now) }
{
    let mut txns = Vec::new(alloc);
    for shard in shards {
        push_shard_txn(alloc, &mut txns, placed, shard)?;
    }
    Ok(txns)
}

// The transactions of the shards where they are a problem, otherwise none.
fn shard_txns_where(
    alloc: Global,
    are_problem: bool,
    placed: &Placement,
    shards: &[ShardView],
) -> Result<Vec<Txn>, NoMemory>
    ensures { IfOk result
        (λ txns. txns.items
        ≡ (if are_problem then filter_map (shard_txn placed.now) shards.now else [])) }
{
    if !are_problem {
        return Ok(Vec::new(alloc));
    }
    let txns = shard_txns(alloc, placed, shards)?;
    Ok(txns)
}

// The transactions for placements of the journals and of the shards.
fn txns_of(
    alloc: Global,
    view: &KeyView,
    journals: &Placement,
    are_problem: bool,
    shards: &Placement,
) -> Result<Txns, NoMemory>
    requires { are_problem ≡ is_problem (shards_asked view.now) }
    ensures { IfOk result (λ txns. txns ≡ txns_of view.now journals.now shards.now) }
{
    let members = member_ids(alloc, view.members())?;
    let mut txns = journal_txns(alloc, members.as_slice(), journals, view.journals())?;
    let mut more = shard_txns_where(alloc, are_problem, shards, view.shards())?;
    txns.append(&mut more)?;
    Ok(Txns::from_vec(txns))
}

// A greatest placement of the problem.
fn placed(
    alloc: Global,
    problem: &Problem,
    now: &Placement,
    goal: &Placement,
) -> Result<Placement, NoMemory>
    requires { is_problem problem.now ≡ true }
    ensures { IfOk result (λ placement. IsPlaced problem.now now.now goal.now placement) }
{
    let (placement, _cut) = place(alloc, problem, now, goal)?;
    Ok(placement)
}

// The placement of the journals, from their routes and the goal. Of what is no problem nothing is placed.
#[tactic(auto, using(crate::proofs::Placing::nothing_placed))]
fn place_journals(alloc: Global, view: &KeyView, goal: &Placement) -> Result<Placement, NoMemory>
    ensures { IfOk result
        (λ placement. IsPlaced (journals_asked view.now) (routes_now view.now) goal.now placement) }
{
    let items = journal_items(alloc, view.journals())?;
    let brokers = holders(alloc, false, view.members())?;
    let Some(problem) = Problem::of(items, brokers) else {
        return Ok(Placement::none(alloc));
    };
    let now = routes_now(alloc, view)?;
    let placement = placed(alloc, &problem, &now, goal)?;
    Ok(placement)
}

// The placement of the shards, from their lists, and whether they are a problem. Of what is none nothing is placed.
#[tactic(auto, using(crate::proofs::Placing::nothing_placed))]
fn place_shards(alloc: Global, view: &KeyView) -> Result<(Placement, bool), NoMemory>
    ensures placed { IfOk result
        (λ answer. IsPlaced (shards_asked view.now) (lists_now view.now) [] answer.0) }
    ensures problem { IfOk result (λ answer. answer.1 ≡ is_problem (shards_asked view.now)) }
{
    let items = shard_items(alloc, view.shards())?;
    let consumers = holders(alloc, true, view.members())?;
    let Some(problem) = Problem::of(items, consumers) else {
        return Ok((Placement::none(alloc), false));
    };
    let now = lists_now(alloc, view)?;
    let goal = Placement::none(alloc);
    let placement = placed(alloc, &problem, &now, &goal)?;
    Ok((placement, true))
}

/// The transactions that bring routes and lists nearer to the placement, at most one for each journal and each shard, and
/// the placement of the journals as the next goal. A broker that has its key leaves a route only where the sync key
/// says the route's epoch. `goal` is that of the converge before, empty at first.
pub fn converge(alloc: Global, view: &KeyView, goal: &Placement) -> Result<Converged, NoMemory>
    ensures { IfOk result (λ converged. Converges view.now goal.now converged) }
{
    let goal = place_journals(alloc, view, goal)?;
    let (shards, are_problem) = place_shards(alloc, view)?;
    let txns = txns_of(alloc, view, &goal, are_problem, &shards)?;
    Ok(Converged { txns, goal, shards })
}
