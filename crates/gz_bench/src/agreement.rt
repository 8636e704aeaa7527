//! Small problems, by `place` and by the plain program that tries each set of pairs.

use gz_alloc::{Item, Member, Placement, Problem, greatest_of, place};
use gz_label::{Name, NoMemory};
use std::alloc::Global;

/// The most members of a problem.
const MEMBERS: u32 = 3;

/// In how many ways an item may be: with 1 to 4 replicas.
const ITEM_WAYS: u32 = 4;

/// In how many ways a member may be: in one of two zones, with a limit of 0 to 2.
const MEMBER_WAYS: u32 = 6;

fn name(alloc: Global, letter: &str, number: u32) -> Result<Name, NoMemory> {
    let text = format!(in alloc; "{letter}{number}")?;
    match Name::read(alloc, text.as_bytes()) {
        Ok(name) => Ok(name),
        Err(_) => Err(NoMemory),
    }
}

/// So many items, whose replicas the digits of the code say.
fn items(alloc: Global, count: u32, code: u32) -> Result<Vec<Item>, NoMemory> {
    let mut items = Vec::new(alloc);
    let mut left = code;
    for i in 0..count {
        let replicas = (1 + left % ITEM_WAYS) as u8;
        left /= ITEM_WAYS;
        items.push(Item {
            name: name(alloc, "i", i)?,
            replicas,
        })?;
    }
    Ok(items)
}

/// So many members, whose zones and limits the digits of the code say.
fn members(alloc: Global, count: u32, code: u32) -> Result<Vec<Member>, NoMemory> {
    let mut members = Vec::new(alloc);
    let mut left = code;
    for m in 0..count {
        let way = left % MEMBER_WAYS;
        left /= MEMBER_WAYS;
        members.push(Member {
            name: name(alloc, "m", m)?,
            zone: name(alloc, "z", way % 2)?,
            limit: (way / 2) as u16,
        })?;
    }
    Ok(members)
}

/// Whether `place` finds as many pairs as the plain program.
fn agrees(alloc: Global, problem: &Problem) -> Result<bool, NoMemory> {
    let none = Placement::none(alloc);
    let (placement, _cut) = place(alloc, problem, &none, &none)?;
    let greatest = greatest_of(alloc, problem)?;
    Ok(placement.pairs().len() == greatest)
}

/// For how many problems of so many items and members the two agree.
fn agree_of(alloc: Global, item_count: u32, member_count: u32) -> Result<u64, NoMemory> {
    let mut same = 0u64;
    for item_code in 0..ITEM_WAYS.saturating_pow(item_count) {
        for member_code in 0..MEMBER_WAYS.saturating_pow(member_count) {
            let items = items(alloc, item_count, item_code)?;
            let members = members(alloc, member_count, member_code)?;
            if let Some(problem) = Problem::of(items, members) {
                if agrees(alloc, &problem)? {
                    same = same.saturating_add(1);
                }
            }
        }
    }
    Ok(same)
}

/// Compares the two on every problem of at most so many items, with 1 to 4 replicas, and at most three members, in two
/// zones and with limits of 0 to 2. Answers on how many they agree, which is all of them.
pub fn agree(alloc: Global, most: u32) -> Result<u64, NoMemory> {
    let mut same = 0u64;
    for item_count in 0..=most {
        for member_count in 0..=MEMBERS {
            same = same.saturating_add(agree_of(alloc, item_count, member_count)?);
        }
    }
    Ok(same)
}
