//! A greatest table, with a cut that shows that none is greater.
ghost use Rattle.std.specs.Prelude.{◌≡◌, ◌+◌, ◌≤◌, OnOk, IfOk};
ghost use Rattle.gz_alloc.specs.Flow.{IsNet, IsTable, Keeps, total, cells_of, capacity};
ghost use Rattle.gz_alloc.specs.Search.{IsSearch, IsWanted, IsWhole, is_chosen, is_zone_chosen};

use crate::network::{Network, set};
use crate::search::Search;
use gz_label::NoMemory;
use std::alloc::Global;

/// Makes the item b and the member t a pair, and moves items along the ways that the search has found until each
/// member is within its limit.
fn add_pair(network: &Network, flags: &mut [bool], search: &Search, b: usize, t: usize)
    requires net { IsNet network.now }
    requires table { IsTable network.now flags.old }
    requires keeps { Keeps network.now (cells_of flags.old) }
    requires search { IsSearch network.now (cells_of flags.old) search.now }
    requires wanted { IsWanted network.now (cells_of flags.old) search.now b t }
    ensures keeps { Keeps network.now (cells_of flags.new) }
    ensures more { total network.now (cells_of flags.new)
        ≡ total network.now (cells_of flags.old) + 1 }
{
    set(flags, b, t, true);
    let mut at = t;
    'way: while network.limit(at) < network.load(flags, at) {
        let mover = search.mover(at);
        let next = search.to(at);
        set(flags, mover, at, false);
        set(flags, mover, next, true);
        at = next;
    }
}

/// Adds pairs, moving items where there is need, until there are as many as can be. The search that ends it.
pub(crate) fn solve(
    alloc: Global,
    network: &Network,
    flags: &mut [bool],
) -> Result<Search, NoMemory>
    requires net { IsNet network.now }
    requires table { IsTable network.now flags.old }
    requires keeps { Keeps network.now (cells_of flags.old) }
    ensures keeps { OnOk result (Keeps network.now (cells_of flags.new)) }
    ensures whole { IfOk result (λ search. IsWhole network.now (cells_of flags.new) search) }
{
    'pairs: loop {
        let mut search = Search::start(alloc, network, flags)?;
        match search.run(network, flags) {
            Some((b, t)) => add_pair(network, flags, &search, b, t),
            None => return Ok(search),
        }
    }
}
