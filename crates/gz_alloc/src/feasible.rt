//! Whether a placement is feasible.
ghost use Rattle.std.specs.Prelude.{◌≡◌, ℕ, ◌*◌, ◌<◌, ◌≤◌, true, false, replicate, IfOk};
ghost use Rattle.std.specs.List.{list_all};
ghost use Rattle.gz_alloc.specs.Flow.{IsNet, IsTable, items, members, replicas, limit, zone, cells_of, row, load, in_zone, zone_bound, Keeps, total};
ghost use Rattle.gz_alloc.specs.Names.{Asked, net_of, is_known, is_problem, place_of, item_names, member_names, mark_pairs, IsFeasible, IsFeasibleOf, size};

use crate::network::{Network, bound_of, cell};
use crate::problem::{Placement, Problem};
use crate::table::table_of;
use gz_label::{Name, NoMemory};
use std::alloc::Global;

/// Whether the item keeps its bound in each zone. A zone that has none of it needs no count.
fn zones_keep(network: &Network, flags: &[bool], i: usize) -> bool
    requires net { IsNet network.now }
    requires table { IsTable network.now flags.now }
    requires item { i < items network.now }
    ensures yes { result ≡ true → (m : ℕ) → m < members network.now →
        in_zone network.now (cells_of flags.now) i (zone network.now m) ≤ zone_bound
        (replicas network.now i) }
    ensures no { result ≡ false → Keeps network.now (cells_of flags.now) → ⊥ }
{
    let bound = bound_of(network.replicas(i));
    for m in 0..network.members() {
        if cell(flags, i, m) && bound < network.in_zone(flags, i, network.zone(m)) {
            return false;
        }
    }
    true
}

/// Whether each item has at most its replicas, and at most its bound in each zone.
fn items_keep(network: &Network, flags: &[bool]) -> bool
    requires net { IsNet network.now }
    requires table { IsTable network.now flags.now }
    ensures rows { result ≡ true → (i : ℕ) → i < items network.now →
        row network.now (cells_of flags.now) i ≤ replicas network.now i }
    ensures zones { result ≡ true → (i m : ℕ) → i < items network.now → m < members network.now →
        in_zone network.now (cells_of flags.now) i (zone network.now m) ≤ zone_bound
        (replicas network.now i) }
    ensures no { result ≡ false → Keeps network.now (cells_of flags.now) → ⊥ }
{
    for i in 0..network.items() {
        if network.replicas(i) < network.row(flags, i) {
            return false;
        }
        let zones = zones_keep(network, flags, i);
        if !zones {
            return false;
        }
    }
    true
}

/// Whether each member has at most its limit.
fn members_keep(network: &Network, flags: &[bool]) -> bool
    requires net { IsNet network.now }
    requires table { IsTable network.now flags.now }
    ensures yes { result ≡ true → (m : ℕ) → m < members network.now →
        load network.now (cells_of flags.now) m ≤ limit network.now m }
    ensures no { result ≡ false → Keeps network.now (cells_of flags.now) → ⊥ }
{
    for m in 0..network.members() {
        if network.limit(m) < network.load(flags, m) {
            return false;
        }
    }
    true
}

/// Whether the table keeps all bounds.
pub(crate) fn keeps(network: &Network, flags: &[bool]) -> bool
    requires net { IsNet network.now }
    requires table { IsTable network.now flags.now }
    ensures yes { result ≡ true → Keeps network.now (cells_of flags.now) }
    ensures no { result ≡ false → Keeps network.now (cells_of flags.now) → ⊥ }
{
    if !items_keep(network, flags) {
        return false;
    }
    members_keep(network, flags)
}

/// Whether the pair is of the problem's items and members.
fn is_known(problem: &Problem, network: &Network, pair: &(Name, Name)) -> bool
    requires numbers { network.now ≡ net_of problem.now }
    ensures { result ≡ is_known problem.now pair.now }
{
    let item = problem.item_place(&pair.0) < network.items();
    let member = problem.member_place(&pair.1) < network.members();
    item & member
}

/// Whether all pairs are of the problem's items and members.
pub(crate) fn all_known(problem: &Problem, network: &Network, pairs: &[(Name, Name)]) -> bool
    requires numbers { network.now ≡ net_of problem.now }
    ensures { result ≡ list_all (is_known problem.now) pairs.now }
{
    for pair in pairs {
        let known = is_known(problem, network, pair);
        if !known {
            return false;
        }
    }
    true
}

/// How many pairs a table has.
#[tactic(auto, using(crate::proofs::SumLemmas::sum_to_more))]
pub(crate) fn total(network: &Network, flags: &[bool]) -> usize
    requires net { IsNet network.now }
    requires table { IsTable network.now flags.now }
    ensures { result ≡ total network.now (cells_of flags.now) }
{
    let mut sum = 0;
    for i in 0..network.items() {
        sum += network.row(flags, i);
    }
    sum
}

/// Whether the placement of this table is feasible and has so many pairs.
pub(crate) fn is_table_of_size(
    problem: &Problem,
    network: &Network,
    pairs: &[(Name, Name)],
    flags: &[bool],
    size: usize,
) -> bool
    requires net { IsNet network.now }
    requires problem { is_problem problem.now ≡ true }
    requires numbers { network.now ≡ net_of problem.now }
    requires table { IsTable network.now flags.now }
    requires cells { flags.now
        ≡ mark_pairs problem.now pairs.now (replicate (64 * items network.now) false) }
    ensures yes { result ≡ true → IsFeasibleOf problem.now pairs.now size }
    ensures no { result ≡ false → IsFeasibleOf problem.now pairs.now size → ⊥ }
{
    let known = all_known(problem, network, pairs);
    if !known {
        return false;
    }
    let kept = keeps(network, flags);
    if !kept {
        return false;
    }
    let count = total(network, flags);
    count == size
}
