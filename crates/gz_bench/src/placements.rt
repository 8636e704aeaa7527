//! Work with placements.

use gz_alloc::{Item, Member, Placement, Problem, place};
use gz_label::{Name, NoMemory};
use std::alloc::Global;

/// How many members there are, in how many zones, what each holds at most, and how many replicas each item has.
const MEMBERS: u32 = 64;

const ZONES: u32 = 8;

const LIMIT: u16 = 80;

const REPLICAS: u8 = 5;

fn name(alloc: Global, text: &str) -> Result<Name, NoMemory> {
    match Name::read(alloc, text.as_bytes()) {
        Ok(name) => Ok(name),
        Err(_) => Err(NoMemory),
    }
}

/// A problem of so many items, where there is one: at most 1,024, which fill the members.
fn problem(alloc: Global, count: u32) -> Result<Option<Problem>, NoMemory> {
    let mut items = Vec::new(alloc);
    for i in 0..count {
        let text = format!(in alloc; "i{i:04}")?;
        items.push(Item {
            name: name(alloc, text.as_str())?,
            replicas: REPLICAS,
        })?;
    }
    let mut members = Vec::new(alloc);
    for m in 0..MEMBERS {
        let text = format!(in alloc; "m{m:02}")?;
        let number = m % ZONES;
        let zone = format!(in alloc; "z{number}")?;
        members.push(Member {
            name: name(alloc, text.as_str())?,
            zone: name(alloc, zone.as_str())?,
            limit: LIMIT,
        })?;
    }
    Ok(Problem::of(items, members))
}

/// Places so many items. Answers how many pairs the placement has.
pub fn place_all(alloc: Global, count: u32) -> Result<u64, NoMemory> {
    let Some(problem) = problem(alloc, count)? else {
        return Ok(0);
    };
    let none = Placement::none(alloc);
    let (placement, _cut) = place(alloc, &problem, &none, &none)?;
    Ok(placement.pairs().len() as u64)
}

/// The same, and then a hundred times with the placement that is there, which stays.
pub fn place_again(alloc: Global, count: u32) -> Result<u64, NoMemory> {
    let Some(problem) = problem(alloc, count)? else {
        return Ok(0);
    };
    let none = Placement::none(alloc);
    let (mut placement, _cut) = place(alloc, &problem, &none, &none)?;
    for _ in 0..100 {
        let (same, _cut) = place(alloc, &problem, &placement, &none)?;
        placement = same;
    }
    Ok(placement.pairs().len() as u64)
}
