//! How far other members have come.
ghost use Rattle.std.specs.Prelude.{◌≡◌, ◌≤◌, List, max, if◌then◌else◌, IfOk};
ghost use Rattle.std.specs.Str.{bytes_eq};
ghost use Rattle.gz_replica.specs.Slots.{all_at, emptied, fill, full, held_raised, least, missing, slots_for};

use crate::slots;
use gz_label::{Name, NoMemory};
use gz_wire::Names;
use std::alloc::Global;
use std::marker::Model;

/// The end up to which each other member has adopted, in route order.
#[derive(Debug, Drop)]
pub struct Reached {
    slots: Vec<(Name, Option<u64>)>,
}

impl Model for Reached {
    ghost use Rattle.std.specs.Prelude.{ℕ};
    ghost use Rattle.gz_replica.specs.Slots.{Slots};

    ghost Value = { Slots ℕ };

    ghost view = { λ a. a.slots.items };
}

impl Reached {
    /// None of these has told.
    pub fn of(alloc: Global, names: &[Name]) -> Result<Reached, NoMemory>
        ensures { IfOk result (λ reached. reached ≡ slots_for names.now) }
    {
        let slots = slots::slots_for(alloc, names)?;
        Ok(Reached { slots })
    }

    /// The first end of a member stays. The answer is for `empty`, which undoes the call. It takes no memory.
    pub fn fill(&mut self, member: &Name, end: u64) -> usize
        ensures ends { self.new ≡ fill member.now end self.old }
        ensures undone { emptied self.new result ≡ self.old }
    {
        slots::fill(self.slots.as_mut_slice(), member, end)
    }

    /// The member at this place, if there is one, hasn't told. It takes no memory.
    pub fn empty(&mut self, place: usize)
        ensures { self.new ≡ emptied self.old place }
    {
        slots::empty(self.slots.as_mut_slice(), place);
    }

    /// Whether all have told. It takes no memory.
    pub fn is_full(&self) -> bool
        ensures { result ≡ full self.now }
    {
        slots::is_full(self.slots.as_slice())
    }

    /// The members that haven't told.
    pub fn missing(&self, alloc: Global) -> Result<Names, NoMemory>
        ensures { IfOk result (λ names. names ≡ missing self.now) }
    {
        let names = slots::missing(alloc, self.slots.as_slice())?;
        Ok(names)
    }
}

/// The end that each other member is known to hold, in route order.
#[derive(Debug, Drop)]
pub struct HeldEnds {
    ends: Vec<(Name, u64)>,
}

impl Model for HeldEnds {
    ghost use Rattle.std.specs.Prelude.{List, ℕ};

    ghost Value = { List (List ℕ × ℕ) };

    ghost view = { λ a. a.ends.items };
}

#[tactic(auto, using(crate::proofs::Holding::all_left))]
fn ends_at(alloc: Global, end: u64, names: &[Name]) -> Result<Vec<(Name, u64)>, NoMemory>
    ensures { IfOk result (λ ends. ends.items ≡ all_at end names.now) }
{
    let mut ends = Vec::new(alloc);
    for name in names {
        let copied = name.copy()?;
        ends.push((copied, end))?;
    }
    Ok(ends)
}

#[tactic(auto, using(crate::proofs::Holding::least_step))]
fn least_of(end: u64, ends: &[(Name, u64)]) -> u64
    ensures value { result ≡ least end ends.now }
    ensures within { result ≤ end }
{
    let mut least = end;
    for held in ends {
        least = least.min(held.1);
    }
    least
}

fn end_raised(held: &(Name, u64), member: &Name, end: u64) -> u64
    ensures { result
        ≡ (if bytes_eq member.now held.now.0 then max held.now.1 end else held.now.1) }
{
    if *member == held.0 {
        return held.1.max(end);
    }
    held.1
}

fn least_raised(end: u64, ends: &[(Name, u64)], member: &Name, reached: u64) -> u64
    ensures value { result ≡ least end (held_raised member.now reached ends.now) }
    ensures within { result ≤ end }
{
    let mut least = end;
    for held in ends {
        least = least.min(end_raised(held, member, reached));
    }
    least
}

fn raise_one(held: &mut (Name, u64), member: &Name, end: u64)
    ensures { held.new
        ≡ (if bytes_eq member.now held.old.0 then (held.old.0, max held.old.1 end) else held.old) }
{
    if *member == held.0 {
        held.1 = held.1.max(end);
    }
}

#[tactic(auto, using(crate::proofs::Holding::raise_step, crate::proofs::Holding::length_raised))]
fn raise_each(ends: &mut [(Name, u64)], member: &Name, end: u64)
    ensures { ends.new ≡ held_raised member.now end ends.old }
{
    for i in 0..ends.len() {
        raise_one(&mut ends[i], member, end);
    }
}

impl HeldEnds {
    /// One end for all of these.
    pub fn all_at(alloc: Global, end: u64, names: &[Name]) -> Result<HeldEnds, NoMemory>
        ensures { IfOk result (λ held. held ≡ all_at end names.now) }
    {
        let ends = ends_at(alloc, end, names)?;
        Ok(HeldEnds { ends })
    }

    /// The members with their ends. It takes no memory.
    pub fn as_slice(&self) -> &[(Name, u64)]
        ensures { result.now ≡ self.now }
    {
        self.ends.as_slice()
    }

    /// The least of this end and all that are held. It takes no memory.
    pub fn least(&self, end: u64) -> u64
        ensures value { result ≡ least end self.now }
        ensures within { result ≤ end }
    {
        least_of(end, self.ends.as_slice())
    }

    /// What `least` would be of this end, once the member's end was raised. It takes no memory.
    pub fn least_raised(&self, end: u64, member: &Name, reached: u64) -> u64
        ensures value { result ≡ least end (held_raised member.now reached self.now) }
        ensures within { result ≤ end }
    {
        least_raised(end, self.ends.as_slice(), member, reached)
    }

    /// The member's end becomes the greater of the old one and of this one. It takes no memory.
    pub fn raise(&mut self, member: &Name, end: u64)
        ensures { self.new ≡ held_raised member.now end self.old }
    {
        raise_each(self.ends.as_mut_slice(), member, end);
    }
}
