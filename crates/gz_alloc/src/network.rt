//! A problem by numbers, and the tables that keep its bounds.
ghost use Rattle.std.specs.Prelude.{◌≡◌, ℕ, ◌+◌, ◌*◌, ◌<◌, ◌≤◌, length, IsTrue, ◌↔◌};
ghost use Rattle.gz_alloc.specs.Flow.{Net, IsNet, IsTable, items, members, replicas, limit, zone, cells_of, set_cell, row, load, in_zone, zone_bound};

use std::marker::Model;

/// What a problem asks by numbers: each item's replicas, each member's limit, and each member's zone, which is
/// the place of its first member.
#[derive(Debug, Drop)]
pub(crate) struct Network {
    replicas: Vec<usize>,
    limits: Vec<usize>,
    zones: Vec<usize>,
}

impl Model for Network {
    ghost use Rattle.gz_alloc.specs.Flow.{Net};

    ghost Value = { Net };

    ghost view = { λ a. record { replicas = a.replicas.items; limits = a.limits.items; zones = a.zones.items } };
}

/// Whether the item and the member are a pair of the table.
pub(crate) fn cell(flags: &[bool], i: usize, m: usize) -> bool
    requires { 64 * i + m < length flags.now }
    ensures { result ≡ cells_of flags.now i m }
{
    flags[64 * i + m]
}

/// Makes the item and the member a pair of the table, or none.
pub(crate) fn set(flags: &mut [bool], i: usize, m: usize, paired: bool)
    requires { 64 * i + m < length flags.old }
    ensures { flags.new ≡ set_cell flags.old i m paired }
{
    flags[64 * i + m] = paired;
}

/// How many replicas of an item one zone may hold.
pub(crate) fn bound_of(replicas: usize) -> usize
    ensures { result ≡ zone_bound replicas }
{
    if 1 < replicas { replicas - 1 } else { 1 }
}

impl Network {
    pub(crate) fn new(replicas: Vec<usize>, limits: Vec<usize>, zones: Vec<usize>) -> Network
        ensures { result
            ≡ record { replicas = replicas.items; limits = limits.items; zones = zones.items } }
    {
        Network {
            replicas,
            limits,
            zones,
        }
    }

    /// How many items there are.
    pub(crate) fn items(&self) -> usize
        ensures { result ≡ items self.now }
    {
        self.replicas.len()
    }

    /// How many members there are.
    pub(crate) fn members(&self) -> usize
        ensures { result ≡ members self.now }
    {
        self.limits.len()
    }

    /// How many replicas an item asks for.
    pub(crate) fn replicas(&self, i: usize) -> usize
        requires { i < items self.now }
        ensures { result ≡ replicas self.now i }
    {
        self.replicas[i]
    }

    /// The limit of a member.
    pub(crate) fn limit(&self, m: usize) -> usize
        requires { m < members self.now }
        ensures { result ≡ limit self.now m }
    {
        self.limits[m]
    }

    /// The zone of a member.
    pub(crate) fn zone(&self, m: usize) -> usize
        requires net { IsNet self.now }
        requires within { m < members self.now }
        ensures { result ≡ zone self.now m }
    {
        self.zones[m]
    }

    /// On how many members an item is placed.
    #[tactic(auto, using(crate::proofs::SumLemmas::count_to_more))]
    pub(crate) fn row(&self, flags: &[bool], i: usize) -> usize
        requires net { IsNet self.now }
        requires table { IsTable self.now flags.now }
        requires within { i < items self.now }
        ensures count { result ≡ row self.now (cells_of flags.now) i }
        ensures few { result ≤ 64 }
    {
        let mut count = 0;
        for m in 0..self.members() {
            if cell(flags, i, m) {
                count += 1;
            }
        }
        count
    }

    /// How many items a member holds.
    #[tactic(auto, using(crate::proofs::SumLemmas::count_to_more))]
    pub(crate) fn load(&self, flags: &[bool], m: usize) -> usize
        requires net { IsNet self.now }
        requires table { IsTable self.now flags.now }
        requires within { m < members self.now }
        ensures { result ≡ load self.now (cells_of flags.now) m }
    {
        let mut count = 0;
        for i in 0..self.items() {
            if cell(flags, i, m) {
                count += 1;
            }
        }
        count
    }

    /// On how many members of a zone an item is placed.
    #[tactic(auto, using(crate::proofs::SumLemmas::count_to_more))]
    pub(crate) fn in_zone(&self, flags: &[bool], i: usize, zone: usize) -> usize
        requires net { IsNet self.now }
        requires table { IsTable self.now flags.now }
        requires within { i < items self.now }
        ensures { result ≡ in_zone self.now (cells_of flags.now) i zone }
    {
        let mut count = 0;
        for m in 0..self.members() {
            if cell(flags, i, m) && self.zone(m) == zone {
                count += 1;
            }
        }
        count
    }
}
