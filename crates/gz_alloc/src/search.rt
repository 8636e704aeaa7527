//! The search for a place: which members can take one more item, by moving others.
ghost use Rattle.std.specs.Prelude.{◌≡◌, ℕ, ◌+◌, ◌^◌, ◌<◌, ◌≤◌, ◌⊎◌, length, true, false, nat_lt, IfOk, IfSome, IfNone};
ghost use Rattle.gz_alloc.specs.Flow.{IsNet, IsTable, items, members, limit, zone, cells_of, load};
ghost use Rattle.gz_alloc.specs.Search.{Marks, target, rank, mover, to, is_open, CanMove, IsSearch, EachTaken, IsTaken, IsPassed, IsWanted, IsWhole, IsTarget, Opens, Advances, IsPassedAt, IsRoomy, IsStart, open_at, aim_at, new_marks};

use crate::network::{Network, bound_of, cell};
use gz_label::NoMemory;
use std::alloc::Global;
use std::marker::Model;

/// The target of an item that has none, and the rank of a member that has no way.
const NONE: usize = 64;

/// What the search knows so far. A member has a way where it has room, or an item may move from it to a member
/// that was found to have a way before.
#[derive(Debug, Drop)]
pub(crate) struct Search {
    targets: Vec<usize>,
    ranks: Vec<usize>,
    movers: Vec<usize>,
    tos: Vec<usize>,
    found: usize,
}

impl Model for Search {
    ghost use Rattle.gz_alloc.specs.Search.{Marks};

    ghost Value = { Marks };

    ghost view = { λ a. record { targets = a.targets.items; ranks = a.ranks.items; movers = a.movers.items; tos = a.tos.items; found = a.found } };
}

impl Search {
    /// A search that knows nothing yet.
    fn new(alloc: Global, network: &Network) -> Result<Search, NoMemory>
        ensures { IfOk result
            (λ search. search ≡ new_marks (items network.now) (members network.now)) }
    {
        Ok(Search {
            targets: vec![in alloc; NONE; network.items()]?,
            ranks: vec![in alloc; NONE; network.members()]?,
            movers: vec![in alloc; 0; network.members()]?,
            tos: vec![in alloc; 0; network.members()]?,
            found: 0,
        })
    }

    /// The item's target.
    fn target(&self, b: usize) -> usize
        requires { b < length self.now.targets }
        ensures { result ≡ target self.now b }
    {
        self.targets[b]
    }

    /// As the how many'th the member was found to have a way, from 0.
    fn rank(&self, m: usize) -> usize
        requires { m < length self.now.ranks }
        ensures { result ≡ rank self.now m }
    {
        self.ranks[m]
    }

    /// Whether the member has a way.
    pub(crate) fn has_way(&self, m: usize) -> bool
        requires { m < length self.now.ranks }
        ensures { result ≡ is_open self.now m }
    {
        self.ranks[m] < NONE
    }

    /// Whether the item has a target.
    pub(crate) fn has_target(&self, b: usize) -> bool
        requires { b < length self.now.targets }
        ensures { result ≡ nat_lt (target self.now b) 64 }
    {
        self.targets[b] < NONE
    }

    /// The item that moves from the member.
    pub(crate) fn mover(&self, m: usize) -> usize
        requires { m < length self.now.movers }
        ensures { result ≡ mover self.now m }
    {
        self.movers[m]
    }

    /// The member to which it moves.
    pub(crate) fn to(&self, m: usize) -> usize
        requires { m < length self.now.tos }
        ensures { result ≡ to self.now m }
    {
        self.tos[m]
    }

    /// The member m has a way from now on, by moving the item b to the member t.
    fn open(&mut self, m: usize, b: usize, t: usize)
        requires ranks { m < length self.old.ranks }
        requires movers { m < length self.old.movers }
        requires tos { m < length self.old.tos }
        requires found { self.old.found < 64 }
        ensures { self.new ≡ open_at self.old m b t }
    {
        self.ranks[m] = self.found;
        self.movers[m] = b;
        self.tos[m] = t;
        self.found += 1;
    }

    /// The item b has the target t from now on.
    fn aim(&mut self, b: usize, t: usize)
        requires { b < length self.old.targets }
        ensures { self.new ≡ aim_at self.old b t }
    {
        self.targets[b] = t;
    }

    /// The member m has a way from now on, where it had none, if the item b is placed on it and may move to t.
    fn open_one(
        &mut self,
        network: &Network,
        flags: &[bool],
        b: usize,
        t: usize,
        whole: bool,
        m: usize,
    )
        requires net { IsNet network.now }
        requires table { IsTable network.now flags.now }
        requires search { IsSearch network.now (cells_of flags.now) self.old }
        requires item { b < items network.now }
        requires target { t < members network.now }
        requires has_way { rank self.old t < 64 }
        requires missing { cells_of flags.now b t ≡ false }
        requires aim { whole ≡ true → target self.old b ≡ t }
        requires within { m < members network.now }
        ensures opens { Opens network.now (cells_of flags.now) self.old self.new }
        ensures taken { cells_of flags.now b m ≡ true →
            (whole ≡ true) ⊎ (zone network.now t ≡ zone network.now m) → rank self.new m < 64 }
    {
        if !cell(flags, b, m) || self.rank(m) < NONE {
            return;
        }
        if whole || network.zone(t) == network.zone(m) {
            self.open(m, b, t);
        }
    }

    /// Each member on which the item b is placed has a way from now on; where it isn't the whole row, each one in
    /// the zone of t.
    fn open_row(&mut self, network: &Network, flags: &[bool], b: usize, t: usize, whole: bool)
        requires net { IsNet network.now }
        requires table { IsTable network.now flags.now }
        requires search { IsSearch network.now (cells_of flags.now) self.old }
        requires item { b < items network.now }
        requires target { t < members network.now }
        requires has_way { rank self.old t < 64 }
        requires missing { cells_of flags.now b t ≡ false }
        requires aim { whole ≡ true → target self.old b ≡ t }
        ensures opens { Opens network.now (cells_of flags.now) self.old self.new }
        ensures taken { (m : ℕ) → m < members network.now → cells_of flags.now b m ≡ true →
            (whole ≡ true) ⊎ (zone network.now t ≡ zone network.now m) → rank self.new m < 64 }
    {
        for m in 0..network.members() {
            self.open_one(network, flags, b, t, whole, m);
        }
    }

    /// Goes on from the member t, which has a way, by the item b. Whether the item is placed too seldom and may be
    /// placed on t.
    fn visit(&mut self, network: &Network, flags: &[bool], b: usize, t: usize) -> bool
        requires net { IsNet network.now }
        requires table { IsTable network.now flags.now }
        requires search { IsSearch network.now (cells_of flags.now) self.old }
        requires taken { EachTaken network.now (cells_of flags.now) self.old }
        requires item { b < items network.now }
        requires target { t < members network.now }
        requires has_way { rank self.old t < 64 }
        ensures advances { Advances network.now (cells_of flags.now) self.old self.new }
        ensures passed { result ≡ false → IsPassed network.now (cells_of flags.now) self.new t b }
        ensures wanted { result ≡ true → IsWanted network.now (cells_of flags.now) self.new b t }
    {
        if cell(flags, b, t) || self.target(b) < NONE {
            return false;
        }
        if bound_of(network.replicas(b)) <= network.in_zone(flags, b, network.zone(t)) {
            self.open_row(network, flags, b, t, false);
            return false;
        }
        if network.row(flags, b) < network.replicas(b) {
            return true;
        }
        self.aim(b, t);
        self.open_row(network, flags, b, t, true);
        false
    }

    /// Goes on from the member t, which has a way, by each item. An item that is placed too seldom and may be
    /// placed on t, where there is one.
    fn visit_all(&mut self, network: &Network, flags: &[bool], t: usize) -> Option<usize>
        requires net { IsNet network.now }
        requires table { IsTable network.now flags.now }
        requires search { IsSearch network.now (cells_of flags.now) self.old }
        requires taken { EachTaken network.now (cells_of flags.now) self.old }
        requires target { t < members network.now }
        requires has_way { rank self.old t < 64 }
        ensures advances { Advances network.now (cells_of flags.now) self.old self.new }
        ensures passed { IfNone result
            ((b : ℕ) → b < items network.now →
            IsPassed network.now (cells_of flags.now) self.new t b) }
        ensures wanted { IfSome result
            (λ b. IsWanted network.now (cells_of flags.now) self.new b t) }
    {
        for b in 0..network.items() {
            let wanted = self.visit(network, flags, b, t);
            if wanted {
                return Some(b);
            }
        }
        None
    }

    /// Goes on from each member that has this rank, if any. An item that is placed too seldom and may be placed on
    /// a member that has a way, with the member, where there is one.
    fn visit_rank(
        &mut self,
        network: &Network,
        flags: &[bool],
        head: usize,
    ) -> Option<(usize, usize)>
        requires net { IsNet network.now }
        requires table { IsTable network.now flags.now }
        requires search { IsSearch network.now (cells_of flags.now) self.old }
        requires taken { EachTaken network.now (cells_of flags.now) self.old }
        requires head { head < 64 }
        ensures advances { Advances network.now (cells_of flags.now) self.old self.new }
        ensures later { (m : ℕ) → 64 ≤ rank self.old m → rank self.new m < 64 →
            head < rank self.new m }
        ensures passed { IfNone result
            (IsPassedAt network.now (cells_of flags.now) self.new head (members network.now)) }
        ensures wanted { IfSome result
            (λ found. IsWanted network.now (cells_of flags.now) self.new found.0 found.1) }
    {
        for t in 0..network.members() {
            if self.rank(t) == head {
                match self.visit_all(network, flags, t) {
                    Some(b) => return Some((b, t)),
                    None => {}
                }
            }
        }
        None
    }

    /// Finds all that can be found, or an item that is placed too seldom and may be placed on a member that has a
    /// way, with the member.
    pub(crate) fn run(&mut self, network: &Network, flags: &[bool]) -> Option<(usize, usize)>
        requires net { IsNet network.now }
        requires table { IsTable network.now flags.now }
        requires search { IsSearch network.now (cells_of flags.now) self.old }
        requires taken { EachTaken network.now (cells_of flags.now) self.old }
        requires roomy { IsRoomy network.now (cells_of flags.now) self.old }
        ensures search { IsSearch network.now (cells_of flags.now) self.new }
        ensures whole { IfNone result (IsWhole network.now (cells_of flags.now) self.new) }
        ensures wanted { IfSome result
            (λ found. IsWanted network.now (cells_of flags.now) self.new found.0 found.1) }
    {
        for head in 0..network.members() {
            match self.visit_rank(network, flags, head) {
                Some(found) => return Some(found),
                None => {}
            }
        }
        None
    }

    /// A search in which the members with room have a way.
    pub(crate) fn start(
        alloc: Global,
        network: &Network,
        flags: &[bool],
    ) -> Result<Search, NoMemory>
        requires net { IsNet network.now }
        requires table { IsTable network.now flags.now }
        ensures { IfOk result (λ search. IsStart network.now (cells_of flags.now) search) }
    {
        let mut search = Search::new(alloc, network)?;
        for m in 0..network.members() {
            search.open_roomy(network, flags, m);
        }
        Ok(search)
    }

    /// The member has a way from now on, where it has room and had none.
    fn open_roomy(&mut self, network: &Network, flags: &[bool], m: usize)
        requires net { IsNet network.now }
        requires table { IsTable network.now flags.now }
        requires search { IsSearch network.now (cells_of flags.now) self.old }
        requires within { m < members network.now }
        ensures opens { Opens network.now (cells_of flags.now) self.old self.new }
        ensures roomy { load network.now (cells_of flags.now) m < limit network.now m →
            rank self.new m < 64 }
    {
        if NONE <= self.rank(m) && network.load(flags, m) < network.limit(m) {
            self.open(m, 0, 0);
        }
    }
}
