//! The greatest size of a placement, found plainly: each set of pairs is tried.
ghost use Rattle.std.specs.Prelude.{◌≡◌, ℕ, ◌+◌, ◌*◌, ◌<◌, ◌≤◌, ◌⊎◌, IfOk, false, replicate};
ghost use Rattle.gz_alloc.specs.Flow.{IsNet, IsTable, items, members, cells_of, Keeps, total};
ghost use Rattle.gz_alloc.specs.Names.{net_of, is_problem};
ghost use Rattle.gz_alloc.specs.Plain.{IsGreatest, AgreeBefore, IsAttained, IsMostOf};

use crate::choice::network_of;
use crate::feasible::{keeps, total};
use crate::network::{Network, set};
use crate::problem::Problem;
use gz_label::NoMemory;
use std::alloc::Global;

/// The number, or the table's size where it keeps the bounds and has more pairs.
fn greater(network: &Network, flags: &[bool], most: usize) -> usize
    requires net { IsNet network.now }
    requires table { IsTable network.now flags.now }
    ensures grows { most ≤ result }
    ensures attained { (result ≡ most)
        ⊎ (Keeps network.now (cells_of flags.now)
        × (total network.now (cells_of flags.now) ≡ result)) }
    ensures most { Keeps network.now (cells_of flags.now) →
        total network.now (cells_of flags.now) ≤ result }
{
    let kept = keeps(network, flags);
    if !kept {
        return most;
    }
    let count = total(network, flags);
    if most < count { count } else { most }
}

/// The greatest of the number and the sizes of all tables that keep the bounds, and agree with this one at each pair
/// before the item i and the member m.
fn search(network: &Network, flags: &mut [bool], i: usize, m: usize, most: usize) -> usize
    requires net { IsNet network.now }
    requires table { IsTable network.now flags.old }
    requires item { i ≤ items network.now }
    requires member { m ≤ members network.now }
    ensures stays { AgreeBefore network.now (cells_of flags.old) (cells_of flags.new) i m }
    ensures grows { most ≤ result }
    ensures attained { (result ≡ most) ⊎ IsAttained network.now result }
    ensures most { IsMostOf network.now (cells_of flags.old) i m result }
{
    if network.items() <= i {
        return greater(network, flags, most);
    }
    if network.members() <= m {
        let after = search(network, flags, i + 1, 0, most);
        return after;
    }
    set(flags, i, m, false);
    let without = search(network, flags, i, m + 1, most);
    set(flags, i, m, true);
    let both = search(network, flags, i, m + 1, without);
    both
}

/// The greatest size of a feasible placement. It tries each set of pairs, so it serves for problems of few pairs.
pub fn greatest_of(alloc: Global, problem: &Problem) -> Result<usize, NoMemory>
    ensures { IfOk result (λ n. IsGreatest problem.now n) }
{
    let network = network_of(alloc, problem)?;
    let mut flags = vec![in alloc; false; 64 * network.items()]?;
    let most = search(&network, flags.as_mut_slice(), 0, 0, 0);
    Ok(most)
}
