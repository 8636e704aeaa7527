//! Tables of placements, and back.
ghost use Rattle.std.specs.Prelude.{◌≡◌, ℕ, ◌+◌, ◌*◌, ◌<◌, ◌≤◌, ◌++◌, List, length, true, false, replicate, IfOk, OnOk};
ghost use Rattle.gz_alloc.specs.Flow.{IsNet, IsTable, items, members, zone, cells_of, Keeps};
ghost use Rattle.gz_alloc.specs.Tally.{IsTally, no_tally};
ghost use Rattle.gz_alloc.specs.Names.{Asked, net_of, is_known, place_of, item_names, member_names, name_at, mark_pair, mark_pairs, fits, add_where_fits, keep_pair, keep_pairs, fill_row, fill, greedy, picks, pairs_of};

use crate::network::{Network, set};
use crate::problem::Problem;
use crate::tally::Tally;
use gz_label::{Name, NoMemory};
use std::alloc::Global;

/// Marks the pair in the table, where it is known.
fn mark_pair(problem: &Problem, network: &Network, flags: &mut [bool], pair: &(Name, Name))
    requires net { IsNet network.now }
    requires numbers { network.now ≡ net_of problem.now }
    requires table { IsTable network.now flags.old }
    ensures { flags.new ≡ mark_pair problem.now flags.old pair.now }
{
    let i = problem.item_place(&pair.0);
    let m = problem.member_place(&pair.1);
    if i < network.items() && m < network.members() {
        set(flags, i, m, true);
    }
}

/// The table of the pairs.
pub(crate) fn table_of(
    alloc: Global,
    problem: &Problem,
    network: &Network,
    pairs: &[(Name, Name)],
) -> Result<Vec<bool>, NoMemory>
    requires net { IsNet network.now }
    requires numbers { network.now ≡ net_of problem.now }
    ensures table { IfOk result (λ flags. IsTable network.now flags.items) }
    ensures cells { IfOk result
        (λ flags. flags.items
        ≡ mark_pairs problem.now pairs.now (replicate (64 * items network.now) false)) }
{
    let mut flags = vec![in alloc; false; 64 * network.items()]?;
    for pair in pairs {
        mark_pair(problem, network, flags.as_mut_slice(), pair);
    }
    Ok(flags)
}

/// Keeps the pair, where it is known and fits.
fn keep_pair(problem: &Problem, network: &Network, tally: &mut Tally, pair: &(Name, Name))
    requires net { IsNet network.now }
    requires numbers { network.now ≡ net_of problem.now }
    requires tally { IsTally network.now tally.old }
    ensures tally { IsTally network.now tally.new }
    ensures cells { tally.new.flags ≡ keep_pair problem.now tally.old.flags pair.now }
{
    let i = problem.item_place(&pair.0);
    let m = problem.member_place(&pair.1);
    if i < network.items() && m < network.members() {
        tally.add_where_fits(network, i, m);
    }
}

/// Adds each pair of the item, in order, where it fits.
fn fill_row(network: &Network, tally: &mut Tally, i: usize)
    requires net { IsNet network.now }
    requires tally { IsTally network.now tally.old }
    requires item { i < items network.now }
    ensures tally { IsTally network.now tally.new }
    ensures cells { tally.new.flags ≡ fill_row network.now i (members network.now) tally.old.flags }
{
    for m in 0..network.members() {
        tally.add_where_fits(network, i, m);
    }
}

/// Adds each pair, in order, where it fits.
fn fill(network: &Network, tally: &mut Tally)
    requires net { IsNet network.now }
    requires tally { IsTally network.now tally.old }
    ensures tally { IsTally network.now tally.new }
    ensures cells { tally.new.flags ≡ fill network.now (items network.now) tally.old.flags }
{
    for i in 0..network.items() {
        fill_row(network, tally, i);
    }
}

/// The greedy table: the pairs in their order, and then all pairs in order, each where it fits.
pub(crate) fn greedy(
    alloc: Global,
    problem: &Problem,
    network: &Network,
    now: &[(Name, Name)],
) -> Result<Vec<bool>, NoMemory>
    requires net { IsNet network.now }
    requires numbers { network.now ≡ net_of problem.now }
    ensures table { IfOk result (λ flags. IsTable network.now flags.items) }
    ensures cells { IfOk result (λ flags. flags.items ≡ greedy problem.now now.now) }
{
    let mut tally = Tally::new(alloc, network)?;
    for pair in now {
        keep_pair(problem, network, &mut tally, pair);
    }
    fill(network, &mut tally);
    Ok(tally.into_flags())
}
