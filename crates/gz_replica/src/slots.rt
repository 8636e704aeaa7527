//! A value for each name of a route, once it has told.
ghost use Rattle.std.specs.Prelude.{◌≡◌, Some, IfOk};
ghost use Rattle.gz_replica.specs.Slots.{emptied, fill, full, missing, place_of, slots_for};

use gz_label::{Name, NoMemory};
use gz_wire::Names;
use std::alloc::Global;

/// A slot for each of the names; none of them has told.
#[tactic(auto, using(crate::proofs::Slotted::slots_left))]
pub fn slots_for<T: Drop>(alloc: Global, names: &[Name]) -> Result<Vec<(Name, Option<T>)>, NoMemory>
    ensures { IfOk result (λ slots. slots.items ≡ slots_for names.now) }
{
    let mut slots = Vec::new(alloc);
    for name in names {
        let copied = name.copy()?;
        slots.push((copied, None))?;
    }
    Ok(slots)
}

/// Whether all have told. It takes no memory.
pub fn is_full<T>(slots: &[(Name, Option<T>)]) -> bool
    ensures { result ≡ full slots.now }
{
    for slot in slots {
        if slot.1.is_none() {
            return false;
        }
    }
    true
}

/// The names that haven't told.
#[tactic(auto, using(crate::proofs::Slotted::missing_left, crate::proofs::Slotted::missing_told))]
pub fn missing<T>(alloc: Global, slots: &[(Name, Option<T>)]) -> Result<Names, NoMemory>
    ensures { IfOk result (λ names. names ≡ missing slots.now) }
{
    let mut names = Vec::new(alloc);
    for slot in slots {
        if slot.1.is_none() {
            let name = slot.0.copy()?;
            names.push(name)?;
        }
    }
    Ok(Names::from_vec(names))
}

fn place_of<T>(slots: &[(Name, Option<T>)], member: &Name) -> usize
    ensures { result ≡ place_of member.now slots.now }
{
    for (i, slot) in slots.iter().enumerate() {
        if *member == slot.0 {
            return i;
        }
    }
    slots.len()
}

fn put_value<T: Drop>(slot: &mut (Name, Option<T>), value: Option<T>)
    ensures name { slot.new.0 ≡ slot.old.0 }
    ensures value { slot.new.1 ≡ value }
{
    slot.1 = value;
}

/// The first value of a name stays. The place is that of the slot that took the value, and that of none
/// where no slot did, so `empty` of it undoes the call. It takes no memory.
pub fn fill<T: Drop>(slots: &mut [(Name, Option<T>)], member: &Name, value: T) -> usize
    ensures slots { slots.new ≡ fill member.now value slots.old }
    ensures undone { emptied slots.new result ≡ slots.old }
{
    let place = place_of(slots, member);
    if place >= slots.len() {
        return slots.len();
    }
    if slots[place].1.is_some() {
        return slots.len();
    }
    put_value(&mut slots[place], Some(value));
    place
}

/// The slot at this place, if there is one, hasn't told. It takes no memory.
#[tactic(auto, using(crate::proofs::Slotted::emptied_set, crate::proofs::Slotted::emptied_past))]
pub fn empty<T: Drop>(slots: &mut [(Name, Option<T>)], place: usize)
    ensures { slots.new ≡ emptied slots.old place }
{
    if place < slots.len() {
        put_value(&mut slots[place], None);
    }
}
