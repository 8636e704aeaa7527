//! A table that grows, with its counts.
ghost use Rattle.std.specs.Prelude.{◌≡◌, ℕ, ◌+◌, ◌*◌, ◌<◌, ◌≤◌, length, true, false, replicate, slice_index, slice_set, IfOk};
ghost use Rattle.gz_alloc.specs.Flow.{IsNet, IsTable, items, members, zone, cells_of, set_cell};
ghost use Rattle.gz_alloc.specs.Names.{fits, add_where_fits};
ghost use Rattle.gz_alloc.specs.Tally.{Tallied, IsTally, added, no_tally};

use crate::network::{Network, bound_of, cell, set};
use gz_label::NoMemory;
use std::alloc::Global;
use std::marker::Model;

/// A table, and beside it how many pairs each item has, each member, and each item in each zone, 64 for an item. So
/// it is known at once whether one more pair fits.
#[derive(Debug, Drop)]
pub(crate) struct Tally {
    flags: Vec<bool>,
    rows: Vec<usize>,
    loads: Vec<usize>,
    shares: Vec<usize>,
}

impl Model for Tally {
    ghost use Rattle.gz_alloc.specs.Tally.{Tallied};

    ghost Value = { Tallied };

    ghost view = { λ a. record { flags = a.flags.items; rows = a.rows.items; loads = a.loads.items; shares = a.shares.items } };
}

impl Tally {
    /// A table of no pairs.
    pub(crate) fn new(alloc: Global, network: &Network) -> Result<Tally, NoMemory>
        requires { IsNet network.now }
        ensures { IfOk result
            (λ tally. tally ≡ no_tally (items network.now) (members network.now)) }
    {
        Ok(Tally {
            flags: vec![in alloc; false; 64 * network.items()]?,
            rows: vec![in alloc; 0; network.items()]?,
            loads: vec![in alloc; 0; network.members()]?,
            shares: vec![in alloc; 0; 64 * network.items()]?,
        })
    }

    /// The table.
    pub(crate) fn into_flags(self) -> Vec<bool>
        ensures { result.items ≡ self.flags }
    {
        self.flags
    }

    /// How many pairs the item has.
    fn row(&self, i: usize) -> usize
        requires { i < length self.now.rows }
        ensures { result ≡ slice_index self.now.rows i }
    {
        self.rows[i]
    }

    /// How many items the member holds.
    fn load(&self, m: usize) -> usize
        requires { m < length self.now.loads }
        ensures { result ≡ slice_index self.now.loads m }
    {
        self.loads[m]
    }

    /// How many pairs the item has in the zone.
    fn share(&self, i: usize, z: usize) -> usize
        requires { 64 * i + z < length self.now.shares }
        ensures { result ≡ slice_index self.now.shares (64 * i + z) }
    {
        self.shares[64 * i + z]
    }

    /// Whether the pair can be added.
    #[tactic(auto, using(crate::proofs::TallyLemmas::fits_by_counts))]
    fn fits(&self, network: &Network, i: usize, m: usize) -> bool
        requires net { IsNet network.now }
        requires tally { IsTally network.now self.now }
        requires item { i < items network.now }
        requires member { m < members network.now }
        ensures { result ≡ fits network.now (cells_of self.now.flags) i m }
    {
        if cell(self.flags.as_slice(), i, m) {
            return false;
        }
        let zone = network.zone(m);
        let in_row = self.row(i) < network.replicas(i);
        let in_load = self.load(m) < network.limit(m);
        let in_zone = self.share(i, zone) < bound_of(network.replicas(i));
        in_row & (in_load & in_zone)
    }

    /// Makes the item i and the member m of the zone z a pair.
    fn add(&mut self, i: usize, m: usize, z: usize)
        requires flag { 64 * i + m < length self.old.flags }
        requires row { i < length self.old.rows }
        requires load { m < length self.old.loads }
        requires share { 64 * i + z < length self.old.shares }
        requires few_row { slice_index self.old.rows i ≤ 1024 }
        requires few_load { slice_index self.old.loads m ≤ 1024 }
        requires few_share { slice_index self.old.shares (64 * i + z) ≤ 1024 }
        ensures { self.new ≡ added self.old i m z }
    {
        set(self.flags.as_mut_slice(), i, m, true);
        self.rows[i] += 1;
        self.loads[m] += 1;
        self.shares[64 * i + z] += 1;
    }

    /// Adds the pair, where it fits.
    pub(crate) fn add_where_fits(&mut self, network: &Network, i: usize, m: usize)
        requires net { IsNet network.now }
        requires tally { IsTally network.now self.old }
        requires item { i < items network.now }
        requires member { m < members network.now }
        ensures tally { IsTally network.now self.new }
        ensures cells { self.new.flags ≡ add_where_fits network.now self.old.flags i m }
    {
        let zone = network.zone(m);
        if self.fits(network, i, m) {
            self.add(i, m, zone);
        }
    }
}
