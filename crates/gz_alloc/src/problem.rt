//! Problems, placements and cuts by names.
ghost use Rattle.std.specs.Prelude.{◌≡◌, ℕ, ◌+◌, ◌*◌, ◌<◌, ◌≤◌, [], length, map, Some, None, IfOk, IfErr, replicate, if◌then◌else◌, ◌&&◌, ◌==◌, true, nat_lt, nat_le, slice_index};
ghost use Rattle.std.specs.Ordering.{is_lt, nat_cmp};
ghost use Rattle.std.specs.Cmp.Lexicographic.{slice_cmp};
ghost use Rattle.gz_alloc.specs.Sums.{all_to};
ghost use Rattle.gz_alloc.specs.Ascending.{below_next, ascending};
ghost use Rattle.gz_alloc.specs.Flow.{items, members};
ghost use Rattle.gz_alloc.specs.Names.{Asked, is_problem, item_names, member_names, zone_names, name_at, place_of, rises_at, rises, net_of};

use crate::network::Network;
use gz_label::{Name, NoMemory};
use std::alloc::{AllocError, Global};
use std::cmp::Ordering;
use std::marker::Model;

/// The most items of a problem.
const MAX_ITEMS: usize = 1024;
/// The most members of a problem.
const MAX_MEMBERS: usize = 64;
/// The most replicas of an item.
const MAX_REPLICAS: u8 = 5;
/// The greatest limit of a member.
const MAX_LIMIT: u16 = 1024;

/// An item that is to be placed on as many members as it has replicas, from 1 to 5.
#[derive(Debug, Drop)]
pub struct Item {
    pub name: Name,
    pub replicas: u8,
}

/// A member that holds items, at most as many as its limit, which is at most 1,024.
#[derive(Debug, Drop)]
pub struct Member {
    pub name: Name,
    pub zone: Name,
    pub limit: u16,
}

/// What is asked: items and members, both in the order of their names.
#[derive(Debug, Drop)]
pub struct Problem {
    items: Vec<Item>,
    members: Vec<Member>,
}

impl Model for Problem {
    ghost use Rattle.std.specs.Prelude.{◌≡◌, true};
    ghost use Rattle.gz_alloc.specs.Names.{Asked, is_problem};

    ghost Value = { Asked };

    ghost view = { λ a. record { items = a.items.items; members = a.members.items } };

    ghost invariant = { λ a. is_problem (record { items = a.items.items; members = a.members.items }) ≡ true };
}

/// The place of the zone's first member, or how many members there are.
fn zone_place(members: &[Member], zone: &Name) -> usize
    ensures { result ≡ place_of zone.now (map (λ m. m.zone) members.now) }
{
    for at in 0..members.len() {
        if members[at].zone == *zone {
            return at;
        }
    }
    members.len()
}

/// The place of the item's name; else Err with the place that it would have.
fn find_item(items: &[Item], name: &Name) -> Result<usize, usize>
    requires { rises (map (λ i. i.name) items.now) ≡ true }
    ensures found { IfOk result (λ i. i ≡ place_of name.now (map (λ i. i.name) items.now)) }
    ensures absent { IfErr result
        (λ _. length items.now ≡ place_of name.now (map (λ i. i.name) items.now)) }
{
    let compare = |item: &Item| -> Ordering
        ensures { result ≡ slice_cmp nat_cmp item.now.name name.entry.now }
    { item.name.cmp(name) };
    items.binary_search_by(compare)
}

/// The place of the member's name; else Err with the place that it would have.
fn find_member(members: &[Member], name: &Name) -> Result<usize, usize>
    requires { rises (map (λ m. m.name) members.now) ≡ true }
    ensures found { IfOk result (λ m. m ≡ place_of name.now (map (λ m. m.name) members.now)) }
    ensures absent { IfErr result
        (λ _. length members.now ≡ place_of name.now (map (λ m. m.name) members.now)) }
{
    let compare = |member: &Member| -> Ordering
        ensures { result ≡ slice_cmp nat_cmp member.now.name name.entry.now }
    { member.name.cmp(name) };
    members.binary_search_by(compare)
}

/// Whether the item's name is below that of the next one, if any.
fn item_rises(items: &[Item], i: usize) -> bool
    requires { i < length items.now }
    ensures { result ≡ rises_at (map (λ i. i.name) items.now) i }
{
    if i + 1 < items.len() {
        items[i].name.cmp(&items[i + 1].name).is_lt()
    } else {
        true
    }
}

/// Whether each item's name is below that of the next one.
#[tactic(auto, using(crate::proofs::NameLemmas::all_to_fails))]
fn items_rise(items: &[Item]) -> bool
    ensures { result ≡ rises (map (λ i. i.name) items.now) }
{
    for i in 0..items.len() {
        let rises = item_rises(items, i);
        if !rises {
            return false;
        }
    }
    true
}

/// Whether the member's name is below that of the next one, if any.
fn member_rises(members: &[Member], m: usize) -> bool
    requires { m < length members.now }
    ensures { result ≡ rises_at (map (λ m. m.name) members.now) m }
{
    if m + 1 < members.len() {
        members[m].name.cmp(&members[m + 1].name).is_lt()
    } else {
        true
    }
}

/// Whether each member's name is below that of the next one.
#[tactic(auto, using(crate::proofs::NameLemmas::all_to_fails))]
fn members_rise(members: &[Member]) -> bool
    ensures { result ≡ rises (map (λ m. m.name) members.now) }
{
    for m in 0..members.len() {
        let rises = member_rises(members, m);
        if !rises {
            return false;
        }
    }
    true
}

/// The replicas of an item.
fn replicas_at(items: &[Item], i: usize) -> u8
    requires { i < length items.now }
    ensures { result ≡ slice_index (map (λ i. i.replicas) items.now) i }
{
    items[i].replicas
}

/// The limit of a member.
fn limit_at(members: &[Member], m: usize) -> u16
    requires { m < length members.now }
    ensures { result ≡ slice_index (map (λ m. m.limit) members.now) m }
{
    members[m].limit
}

/// Whether each item has 1 to 5 replicas.
#[tactic(auto, using(crate::proofs::NameLemmas::all_to_fails))]
fn replicas_fit(items: &[Item]) -> bool
    ensures { result ≡ all_to (length items.now)
        (λ i. nat_lt 0 (slice_index (map (λ i. i.replicas) items.now) i)
        && nat_le (slice_index (map (λ i. i.replicas) items.now) i) 5) }
{
    for i in 0..items.len() {
        let replicas = replicas_at(items, i);
        if replicas == 0 || MAX_REPLICAS < replicas {
            return false;
        }
    }
    true
}

/// Whether each member's limit is at most 1,024.
#[tactic(auto, using(crate::proofs::NameLemmas::all_to_fails))]
fn limits_fit(members: &[Member]) -> bool
    ensures { result ≡ all_to (length members.now)
        (λ m. nat_le (slice_index (map (λ m. m.limit) members.now) m) 1024) }
{
    for m in 0..members.len() {
        let limit = limit_at(members, m);
        if MAX_LIMIT < limit {
            return false;
        }
    }
    true
}

/// The items' replicas.
fn replicas_of(alloc: Global, items: &[Item]) -> Result<Vec<usize>, AllocError>
    ensures { IfOk result (λ numbers. numbers.items ≡ map (λ i. i.replicas) items.now) }
{
    items
        .iter()
        .map(|item| usize::from(item.replicas))
        .collect(alloc)
}

/// The members' limits.
fn limits_of(alloc: Global, members: &[Member]) -> Result<Vec<usize>, AllocError>
    ensures { IfOk result (λ numbers. numbers.items ≡ map (λ m. m.limit) members.now) }
{
    members
        .iter()
        .map(|member| usize::from(member.limit))
        .collect(alloc)
}

/// The members' zones, each as the place of its first member.
fn zones_of(alloc: Global, members: &[Member]) -> Result<Vec<usize>, AllocError>
    ensures { IfOk result
        (λ numbers. numbers.items ≡ map
        (λ m. place_of m.zone (map (λ m. m.zone) members.now)) members.now) }
{
    members
        .iter()
        .map(|member| zone_place(members, &member.zone))
        .collect(alloc)
}

/// Whether the items and the members are a problem.
fn is_fit(items: &[Item], members: &[Member]) -> bool
    ensures { result ≡ is_problem (record { items = items.now; members = members.now }) }
{
    let few_items = items.len() <= MAX_ITEMS;
    let few_members = members.len() <= MAX_MEMBERS;
    let items_rise = items_rise(items);
    let members_rise = members_rise(members);
    let replicas_fit = replicas_fit(items);
    let limits_fit = limits_fit(members);
    few_items & (few_members & (items_rise & (members_rise & (replicas_fit & limits_fit))))
}

impl Problem {
    /// The problem of these items and members, where it is one: at most 1,024 items and 64 members, each in the
    /// order of names with no name twice, 1 to 5 replicas, and limits of at most 1,024. Else None. It takes no
    /// memory.
    pub fn of(items: Vec<Item>, members: Vec<Member>) -> Option<Problem>
        ensures { result
            ≡ (if is_problem (record { items = items.items; members = members.items }) then Some
            (record { items = items.items; members = members.items }) else None) }
    {
        let fits = is_fit(&items, &members);
        if fits {
            Some(Problem { items, members })
        } else {
            None
        }
    }

    /// The items. It takes no memory.
    pub fn items(&self) -> &[Item]
        ensures { result.now ≡ self.now.items }
    {
        self.items.as_slice()
    }

    /// The members. It takes no memory.
    pub fn members(&self) -> &[Member]
        ensures { result.now ≡ self.now.members }
    {
        self.members.as_slice()
    }

    /// The place of the item's name, or how many items there are.
    pub(crate) fn item_place(&self, name: &Name) -> usize
        ensures { result ≡ place_of name.now (item_names self.now) }
    {
        match find_item(self.items.as_slice(), name) {
            Ok(i) => i,
            Err(_) => self.items.len(),
        }
    }

    /// The place of the member's name, or how many members there are.
    pub(crate) fn member_place(&self, name: &Name) -> usize
        ensures { result ≡ place_of name.now (member_names self.now) }
    {
        match find_member(self.members.as_slice(), name) {
            Ok(m) => m,
            Err(_) => self.members.len(),
        }
    }

    /// The problem by numbers.
    pub(crate) fn network(&self, alloc: Global) -> Result<Network, NoMemory>
        ensures numbers { IfOk result (λ network. network ≡ net_of self.now) }
        ensures problem { is_problem self.now ≡ true }
    {
        let items = self.items.as_slice();
        let members = self.members.as_slice();
        let replicas = replicas_of(alloc, items)?;
        let limits = limits_of(alloc, members)?;
        let zones = zones_of(alloc, members)?;
        Ok(Network::new(replicas, limits, zones))
    }

    /// A copy of an item's name.
    pub(crate) fn item_name(&self, i: usize) -> Result<Name, NoMemory>
        requires { i < items (net_of self.now) }
        ensures { IfOk result (λ name. name ≡ name_at (item_names self.now) i) }
    {
        let items = self.items.as_slice();
        item_name(items, i)
    }

    /// A copy of a member's name.
    pub(crate) fn member_name(&self, m: usize) -> Result<Name, NoMemory>
        requires { m < members (net_of self.now) }
        ensures { IfOk result (λ name. name ≡ name_at (member_names self.now) m) }
    {
        let members = self.members.as_slice();
        member_name(members, m)
    }

    /// A copy of the name of a member's zone.
    pub(crate) fn zone_name(&self, m: usize) -> Result<Name, NoMemory>
        requires { m < members (net_of self.now) }
        ensures { IfOk result (λ name. name ≡ name_at (zone_names self.now) m) }
    {
        let members = self.members.as_slice();
        zone_name(members, m)
    }
}

/// A copy of an item's name.
fn item_name(items: &[Item], i: usize) -> Result<Name, NoMemory>
    requires { i < length items.now }
    ensures { IfOk result (λ name. name ≡ name_at (map (λ i. i.name) items.now) i) }
{
    items[i].name.copy()
}

/// A copy of a member's name.
fn member_name(members: &[Member], m: usize) -> Result<Name, NoMemory>
    requires { m < length members.now }
    ensures { IfOk result (λ name. name ≡ name_at (map (λ m. m.name) members.now) m) }
{
    members[m].name.copy()
}

/// A copy of the name of a member's zone.
fn zone_name(members: &[Member], m: usize) -> Result<Name, NoMemory>
    requires { m < length members.now }
    ensures { IfOk result (λ name. name ≡ name_at (map (λ m. m.zone) members.now) m) }
{
    members[m].zone.copy()
}

/// Pairs of an item and a member, in the order of items and at one item of members, so that none comes twice. A contract
/// sees them as the list of their names.
#[derive(Debug, Drop)]
pub struct Placement {
    pairs: Vec<(Name, Name)>,
}

impl Model for Placement {
    ghost use Rattle.std.specs.Prelude.{◌≡◌, List, ℕ, true};
    ghost use Rattle.gz_alloc.specs.Ascending.{ascending};

    ghost Value = { List (List ℕ × List ℕ) };

    ghost view = { λ a. a.pairs.items };

    ghost invariant = { λ a. ascending a.pairs.items ≡ true };
}

/// The copy of a list of pairs.
fn copy_pairs(alloc: Global, pairs: &[(Name, Name)]) -> Result<Vec<(Name, Name)>, NoMemory>
    ensures { IfOk result (λ copy. copy.items ≡ pairs.now) }
{
    let mut copy = Vec::new(alloc);
    for pair in pairs {
        copy.push((pair.0.copy()?, pair.1.copy()?))?;
    }
    Ok(copy)
}

/// Whether the pair is below the next one, if any.
fn pair_rises(pairs: &[(Name, Name)], k: usize) -> bool
    requires { k < length pairs.now }
    ensures { result ≡ below_next pairs.now k }
{
    if k + 1 < pairs.len() {
        let items = pairs[k].0.cmp(&pairs[k + 1].0);
        let members = pairs[k].1.cmp(&pairs[k + 1].1);
        items.then(members).is_lt()
    } else {
        true
    }
}

/// Whether each pair is below the next one.
#[tactic(auto, using(crate::proofs::NameLemmas::all_to_fails))]
fn pairs_rise(pairs: &[(Name, Name)]) -> bool
    ensures { result ≡ ascending pairs.now }
{
    for k in 0..pairs.len() {
        let rises = pair_rises(pairs, k);
        if !rises {
            return false;
        }
    }
    true
}

impl Placement {
    /// The placement of these pairs, where they rise. Else None. It takes no memory.
    pub fn of(pairs: Vec<(Name, Name)>) -> Option<Placement>
        ensures { result ≡ (if ascending pairs.items then Some pairs.items else None) }
    {
        let rises = pairs_rise(&pairs);
        if rises {
            Some(Placement { pairs })
        } else {
            None
        }
    }

    /// The placement of no pairs. It takes no memory.
    pub fn none(alloc: Global) -> Placement
        ensures { result ≡ [] }
    {
        Placement {
            pairs: Vec::new(alloc),
        }
    }

    /// The placement of these pairs, which rise.
    pub(crate) fn of_ascending(pairs: Vec<(Name, Name)>) -> Placement
        requires { ascending pairs.items ≡ true }
        ensures { result ≡ pairs.items }
    {
        Placement { pairs }
    }

    /// The pairs. It takes no memory.
    pub fn pairs(&self) -> &[(Name, Name)]
        ensures value { result.now ≡ self.now }
        ensures ordered { ascending self.now ≡ true }
    {
        self.pairs.as_slice()
    }

    /// An equal value.
    pub fn copy(&self, alloc: Global) -> Result<Placement, NoMemory>
        ensures value { IfOk result (λ copy. copy ≡ self.now) }
        ensures ordered { IfOk result (λ copy. ascending copy ≡ true) }
    {
        let pairs = copy_pairs(alloc, self.pairs.as_slice())?;
        Ok(Placement { pairs })
    }
}

/// A choice of members, and of pairs of an item and a zone.
#[derive(Debug, Drop)]
pub struct Cut {
    pub zones: Vec<(Name, Name)>,
    pub members: Vec<Name>,
}
