//! The placement of a problem.
ghost use Rattle.std.specs.Prelude.{◌≡◌, ℕ, ◌+◌, ◌<◌, ◌≤◌, ◌&&◌, ◌++◌, length, true, false, ◌*◌, replicate, IfOk, OnOk};
ghost use Rattle.gz_alloc.specs.Flow.{IsNet, IsTable, Cells, items, members, zone, cells_of, Keeps, total, free, is_zone};
ghost use Rattle.gz_alloc.specs.Ascending.{ascending};
ghost use Rattle.gz_alloc.specs.Search.{IsSearch, is_chosen, is_zone_chosen};
ghost use Rattle.gz_alloc.specs.Names.{Asked, net_of, is_problem, item_names, member_names, zone_names, name_at, IsFeasible, IsFeasibleOf, IsChoice, size, greedy, greedy_pairs, picks, gather, pairs_of, mark_pairs, cut_members, cut_zones, cut_capacity};

use crate::feasible::{is_table_of_size, total};
use crate::network::{Network, cell};
use crate::problem::{Cut, Placement, Problem};
use crate::search::Search;
use crate::solve::solve;
use crate::table::{greedy, table_of};
use gz_label::{Name, NoMemory};
use std::alloc::Global;

/// Puts the item's pairs of the table at the end.
#[tactic(auto, using(crate::proofs::PickLemmas::picks_more))]
fn push_row(
    problem: &Problem,
    network: &Network,
    flags: &[bool],
    i: usize,
    pairs: &mut Vec<(Name, Name)>,
) -> Result<(), NoMemory>
    requires net { IsNet network.now }
    requires numbers { network.now ≡ net_of problem.now }
    requires table { IsTable network.now flags.now }
    requires item { i < items network.now }
    ensures { OnOk result
        (pairs.new.items ≡ pairs.old.items ++ picks (members network.now) (cells_of flags.now i)
        (λ m. (name_at (item_names problem.now) i, name_at (member_names problem.now) m))) }
{
    for m in 0..network.members() {
        if cell(flags, i, m) {
            let item = problem.item_name(i)?;
            let member = problem.member_name(m)?;
            pairs.push((item, member))?;
        }
    }
    Ok(())
}

/// The pairs of the table, in order.
#[tactic(auto, using(crate::proofs::PickLemmas::gather_more))]
fn placement_of(
    alloc: Global,
    problem: &Problem,
    network: &Network,
    flags: &[bool],
) -> Result<Placement, NoMemory>
    requires net { IsNet network.now }
    requires numbers { network.now ≡ net_of problem.now }
    requires problem { is_problem problem.now ≡ true }
    requires table { IsTable network.now flags.now }
    ensures { IfOk result (λ placement. placement ≡ pairs_of problem.now (cells_of flags.now)) }
{
    let mut pairs = Vec::new(alloc);
    for i in 0..network.items() {
        push_row(problem, network, flags, i, &mut pairs)?;
    }
    Ok(Placement::of_ascending(pairs))
}

/// The members that the search chooses.
#[tactic(auto, using(crate::proofs::PickLemmas::picks_more))]
fn cut_members(
    alloc: Global,
    problem: &Problem,
    network: &Network,
    search: &Search,
) -> Result<Vec<Name>, NoMemory>
    requires net { IsNet network.now }
    requires numbers { network.now ≡ net_of problem.now }
    requires ranks { length search.now.ranks ≡ members network.now }
    ensures { IfOk result (λ names. names.items ≡ cut_members problem.now search.now) }
{
    let mut names = Vec::new(alloc);
    for m in 0..network.members() {
        if !search.has_way(m) {
            let name = problem.member_name(m)?;
            names.push(name)?;
        }
    }
    Ok(names)
}

/// How many members of the zone aren't chosen.
#[tactic(auto, using(crate::proofs::SumLemmas::count_to_more))]
fn free(network: &Network, search: &Search, z: usize) -> usize
    requires net { IsNet network.now }
    requires ranks { length search.now.ranks ≡ members network.now }
    ensures { result ≡ free network.now (is_chosen search.now) z }
{
    let mut count = 0;
    for m in 0..network.members() {
        if search.has_way(m) && network.zone(m) == z {
            count += 1;
        }
    }
    count
}

/// Whether the number is that of a zone, and the pair of the item and the zone is chosen.
fn is_cut(network: &Network, search: &Search, i: usize, z: usize) -> bool
    requires net { IsNet network.now }
    requires ranks { length search.now.ranks ≡ members network.now }
    requires targets { length search.now.targets ≡ items network.now }
    requires item { i < items network.now }
    requires within { z < members network.now }
    ensures { result ≡ (is_zone network.now z && is_zone_chosen network.now search.now i z) }
{
    if network.zone(z) != z {
        return false;
    }
    if search.has_target(i) {
        return false;
    }
    0 < free(network, search, z)
}

/// Puts the item's pairs with zones that the search chooses at the end.
#[tactic(auto, using(crate::proofs::PickLemmas::picks_more))]
fn push_zones(
    problem: &Problem,
    network: &Network,
    search: &Search,
    i: usize,
    zones: &mut Vec<(Name, Name)>,
) -> Result<(), NoMemory>
    requires net { IsNet network.now }
    requires numbers { network.now ≡ net_of problem.now }
    requires ranks { length search.now.ranks ≡ members network.now }
    requires targets { length search.now.targets ≡ items network.now }
    requires item { i < items network.now }
    ensures { OnOk result
        (zones.new.items ≡ zones.old.items ++ picks (members network.now)
        (λ z. is_zone network.now z && is_zone_chosen network.now search.now i z)
        (λ z. (name_at (item_names problem.now) i, name_at (zone_names problem.now) z))) }
{
    for z in 0..network.members() {
        let cut = is_cut(network, search, i, z);
        if cut {
            let item = problem.item_name(i)?;
            let zone = problem.zone_name(z)?;
            zones.push((item, zone))?;
        }
    }
    Ok(())
}

/// The pairs of items and zones that the search chooses.
#[tactic(auto, using(crate::proofs::PickLemmas::gather_more))]
fn cut_zones(
    alloc: Global,
    problem: &Problem,
    network: &Network,
    search: &Search,
) -> Result<Vec<(Name, Name)>, NoMemory>
    requires net { IsNet network.now }
    requires numbers { network.now ≡ net_of problem.now }
    requires ranks { length search.now.ranks ≡ members network.now }
    requires targets { length search.now.targets ≡ items network.now }
    ensures { IfOk result (λ pairs. pairs.items ≡ cut_zones problem.now search.now) }
{
    let mut zones = Vec::new(alloc);
    for i in 0..network.items() {
        push_zones(problem, network, search, i, &mut zones)?;
    }
    Ok(zones)
}

/// Whether the placement is feasible and has so many pairs.
fn is_of_size(
    alloc: Global,
    problem: &Problem,
    network: &Network,
    placement: &Placement,
    size: usize,
) -> Result<bool, NoMemory>
    requires net { IsNet network.now }
    requires problem { is_problem problem.now ≡ true }
    requires numbers { network.now ≡ net_of problem.now }
    ensures yes { IfOk result
        (λ answer. answer ≡ true → IsFeasibleOf problem.now placement.now size) }
    ensures no { IfOk result
        (λ answer. answer ≡ false → IsFeasibleOf problem.now placement.now size → ⊥) }
{
    let flags = table_of(alloc, problem, network, placement.pairs())?;
    let answer = is_table_of_size(problem, network, placement.pairs(), flags.as_slice(), size);
    Ok(answer)
}

/// Of the greatest size, the first of: now, the greedy placement, the goal, the placement that was found.
fn choose(
    alloc: Global,
    problem: &Problem,
    network: &Network,
    first: &[bool],
    flags: &[bool],
    now: &Placement,
    goal: &Placement,
) -> Result<Placement, NoMemory>
    requires net { IsNet network.now }
    requires problem { is_problem problem.now ≡ true }
    requires numbers { network.now ≡ net_of problem.now }
    requires first { first.now ≡ greedy problem.now now.now }
    requires first_table { IsTable network.now first.now }
    requires table { IsTable network.now flags.now }
    requires keeps { Keeps network.now (cells_of flags.now) }
    ensures feasible { IfOk result
        (λ placement. IsFeasibleOf problem.now placement (total network.now (cells_of flags.now))) }
    ensures choice { IfOk result
        (λ placement.
        IsChoice problem.now now.now goal.now placement (total network.now (cells_of flags.now))) }
    ensures ordered { IfOk result (λ placement. ascending placement ≡ true) }
{
    let greatest = total(network, flags);
    let stays = is_of_size(alloc, problem, network, now, greatest)?;
    if stays {
        let same = now.copy(alloc)?;
        return Ok(same);
    }
    let count = total(network, first);
    if count == greatest {
        let kept = placement_of(alloc, problem, network, first)?;
        return Ok(kept);
    }
    let aims = is_of_size(alloc, problem, network, goal, greatest)?;
    if aims {
        let aim = goal.copy(alloc)?;
        return Ok(aim);
    }
    let found = placement_of(alloc, problem, network, flags)?;
    Ok(found)
}

/// The problem by numbers.
pub(crate) fn network_of(alloc: Global, problem: &Problem) -> Result<Network, NoMemory>
    ensures numbers { IfOk result (λ network. network ≡ net_of problem.now) }
    ensures net { IfOk result (λ network. IsNet network) }
    ensures problem { IfOk result (λ _. is_problem problem.now ≡ true) }
{
    let network = problem.network(alloc)?;
    Ok(network)
}

/// The greedy table, which keeps the bounds.
fn begin(
    alloc: Global,
    problem: &Problem,
    network: &Network,
    now: &Placement,
) -> Result<Vec<bool>, NoMemory>
    requires net { IsNet network.now }
    requires numbers { network.now ≡ net_of problem.now }
    ensures table { IfOk result (λ flags. IsTable network.now flags.items) }
    ensures cells { IfOk result (λ flags. flags.items ≡ greedy problem.now now.now) }
    ensures keeps { IfOk result (λ flags. Keeps network.now (cells_of flags.items)) }
{
    let flags = greedy(alloc, problem, network, now.pairs())?;
    Ok(flags)
}

/// Makes the table a greatest one, and answers the placement and the cut.
fn finish(
    alloc: Global,
    problem: &Problem,
    network: &Network,
    first: &[bool],
    flags: &mut [bool],
    now: &Placement,
    goal: &Placement,
) -> Result<(Placement, Cut), NoMemory>
    requires net { IsNet network.now }
    requires problem { is_problem problem.now ≡ true }
    requires numbers { network.now ≡ net_of problem.now }
    requires first { first.now ≡ greedy problem.now now.now }
    requires first_table { IsTable network.now first.now }
    requires table { IsTable network.now flags.old }
    requires keeps { Keeps network.now (cells_of flags.old) }
    ensures feasible { IfOk result (λ answer. IsFeasible problem.now answer.0) }
    ensures cut { IfOk result
        (λ answer. cut_capacity problem.now answer.1.members.items answer.1.zones.items
        ≡ size problem.now answer.0) }
    ensures length { IfOk result (λ answer. size problem.now answer.0 ≡ length answer.0) }
    ensures choice { IfOk result
        (λ answer. IsChoice problem.now now.now goal.now answer.0 (size problem.now answer.0)) }
{
    let search = solve(alloc, network, flags)?;
    let members = cut_members(alloc, problem, network, &search)?;
    let zones = cut_zones(alloc, problem, network, &search)?;
    let placement = choose(alloc, problem, network, first, flags, now, goal)?;
    Ok((placement, Cut { zones, members }))
}

/// A feasible placement of the greatest size, which is the number of its pairs, and a cut whose capacity is its size, so
/// none is greater. Of the
/// placements of that size it is the first of: `now`, where it is feasible; the greedy placement, which takes the
/// pairs of `now` in order and then all pairs in order, each where the result stays feasible; `goal`, where it is
/// feasible; any other.
pub fn place(
    alloc: Global,
    problem: &Problem,
    now: &Placement,
    goal: &Placement,
) -> Result<(Placement, Cut), NoMemory>
    ensures feasible { IfOk result (λ answer. IsFeasible problem.now answer.0) }
    ensures cut { IfOk result
        (λ answer. cut_capacity problem.now answer.1.members.items answer.1.zones.items
        ≡ size problem.now answer.0) }
    ensures length { IfOk result (λ answer. size problem.now answer.0 ≡ length answer.0) }
    ensures choice { IfOk result
        (λ answer. IsChoice problem.now now.now goal.now answer.0 (size problem.now answer.0)) }
{
    let network = network_of(alloc, problem)?;
    let first = begin(alloc, problem, &network, now)?;
    let mut flags = Vec::from_slice(alloc, first.as_slice())?;
    let answer = finish(
        alloc,
        problem,
        &network,
        first.as_slice(),
        flags.as_mut_slice(),
        now,
        goal,
    )?;
    Ok(answer)
}
