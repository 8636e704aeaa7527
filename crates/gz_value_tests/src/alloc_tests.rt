// Rows from outside: problems with the placements that are asked of them, and what is no problem.

use gz_alloc::{Item, Member, Placement, Problem, greatest_of, place};
use gz_label::{Blob, Name};
use std::alloc::Global;
use std::test::Fail;

// A row: the items with their replicas, the members with zone and limit, now, the goal, and the answer. A dash is
// an empty list.
fn rows() -> &'static str {
    "A3B3 1y22y23z1 - - A1A2A3B1B2
A1B2 1y12z2 A1B2 - A2B1B2
A1B2 1y12z2 A2B1B2 - A2B1B2
A3B1 - - - -
- 1y2 - - -
A2 1y02z1 - - A2
A3 1y52y53y5 - - A1A2
A3 1y5 - - A1
A1B1 1y12z1 A2B1 A1B2 A2B1
A1B1 1y12z1 A2 A1B2 A2B1
A1B1 1y12z1 - A2B1 A1B2
A1B2 1y12z13z1 A1 A2B1B3 A2B1B3
A1B2 1y12z13z1 - A3B1B2 A3B1B2
A1B1 1y1 A1B1 - A1
A1 1y1 A9C1 A9 A1
A1B1 1y12y1 B1 - A2B1
A2B2C2 1y12z13x1 - - A1A2B3
A5 1y12y13y14y15z1 - - A1A2A3A4A5
A5 1y12y13y14y15y1 - - A1A2A3A4"
}

// Items and members that are no problem, and beside them a problem.
fn wrong_rows() -> &'static str {
    "A0 1y1
A6 1y1
B1A1 1y1
A1A1 1y1
A1 2y11y1
A1 1y11z1"
}

fn name(alloc: Global, letter: u8) -> Result<Name, Fail> {
    let text = [letter];
    let name = Name::read(alloc, text.as_slice())?;
    Ok(name)
}

fn items(alloc: Global, text: &[u8]) -> Result<Vec<Item>, Fail> {
    let mut items = Vec::new(alloc);
    for chunk in text.chunks(2) {
        if let [letter, count] = chunk {
            let name = name(alloc, *letter)?;
            let replicas = count.wrapping_sub(b'0');
            items.push(Item { name, replicas })?;
        }
    }
    Ok(items)
}

fn members(alloc: Global, text: &[u8]) -> Result<Vec<Member>, Fail> {
    let mut members = Vec::new(alloc);
    for chunk in text.chunks(3) {
        if let [letter, zone, count] = chunk {
            let zone = name(alloc, *zone)?;
            let name = name(alloc, *letter)?;
            let limit = u16::from(count.wrapping_sub(b'0'));
            members.push(Member { name, zone, limit })?;
        }
    }
    Ok(members)
}

fn placement(alloc: Global, text: &[u8]) -> Result<Placement, Fail> {
    let mut pairs = Vec::new(alloc);
    for chunk in text.chunks(2) {
        if let [item, member] = chunk {
            let item = name(alloc, *item)?;
            let member = name(alloc, *member)?;
            pairs.push((item, member))?;
        }
    }
    let placement = Placement::of(pairs).ok_or("pairs that rise")?;
    Ok(placement)
}

fn text_of(alloc: Global, placement: &Placement) -> Result<Blob, Fail> {
    let mut text = Blob::new(alloc);
    for pair in placement.pairs() {
        text.append(pair.0.as_slice())?;
        text.append(pair.1.as_slice())?;
    }
    if text.is_empty() {
        text.append(b"-")?;
    }
    Ok(text)
}

// The answer to a row, and what it asks for.
fn answer<'a>(alloc: Global, row: &'a str) -> Result<(Blob, &'a [u8]), Fail> {
    let mut words = row.split_whitespace();
    let items = items(alloc, words.next().unwrap_or("").as_bytes())?;
    let members = members(alloc, words.next().unwrap_or("").as_bytes())?;
    let now = placement(alloc, words.next().unwrap_or("").as_bytes())?;
    let goal = placement(alloc, words.next().unwrap_or("").as_bytes())?;
    let problem = Problem::of(items, members).ok_or("a problem")?;
    let (placement, _cut) = place(alloc, &problem, &now, &goal)?;
    let copied = placement.copy(alloc)?;
    let text = text_of(alloc, &copied)?;
    Ok((text, words.next().unwrap_or("").as_bytes()))
}

#[test]
fn placements(rt: HostRuntime) -> Result<(), Fail> {
    let alloc = rt.alloc();
    for row in rows().lines() {
        let (text, wanted) = answer(alloc, row)?;
        assert_eq!(rt; text.as_slice(), wanted, "of {row}");
    }
    Ok(())
}

#[test]
fn no_problems(rt: HostRuntime) -> Result<(), Fail> {
    let alloc = rt.alloc();
    for row in wrong_rows().lines() {
        let mut words = row.split_whitespace();
        let items = items(alloc, words.next().unwrap_or("").as_bytes())?;
        let members = members(alloc, words.next().unwrap_or("").as_bytes())?;
        assert!(rt; Problem::of(items, members).is_none(), "of {row}");
    }
    Ok(())
}

// A name of two bytes, in the order of the numbers.
fn numbered(alloc: Global, number: usize) -> Result<Name, Fail> {
    let high = u8::try_from(33 + number / 64)?;
    let low = u8::try_from(33 + number % 64)?;
    let text = [high, low];
    let name = Name::read(alloc, text.as_slice())?;
    Ok(name)
}

// As many items and members, each item of these replicas, each member of this limit.
fn alike(
    alloc: Global,
    items: usize,
    replicas: u8,
    members: usize,
    limit: u16,
) -> Result<Option<Problem>, Fail> {
    let mut asked = Vec::new(alloc);
    for i in 0..items {
        let name = numbered(alloc, i)?;
        asked.push(Item { name, replicas })?;
    }
    let mut holders = Vec::new(alloc);
    for m in 0..members {
        let name = numbered(alloc, m)?;
        let zone = numbered(alloc, m % 3)?;
        holders.push(Member { name, zone, limit })?;
    }
    Ok(Problem::of(asked, holders))
}

#[test]
fn limits(rt: HostRuntime) -> Result<(), Fail> {
    let alloc = rt.alloc();
    for (items, replicas, members, limit, fits) in [
        (1024, 5, 64, 1024, true),
        (1025, 5, 64, 1024, false),
        (1024, 6, 64, 1024, false),
        (1024, 5, 65, 1024, false),
        (1024, 5, 64, 1025, false),
    ] {
        let problem = alike(alloc, items, replicas, members, limit)?;
        assert_eq!(rt;
            problem.is_some(),
            fits,
            "{items} {replicas} {members} {limit}"
        );
    }
    Ok(())
}

// The problem whose items have 1 to 4 replicas, and whose members are in one of two zones and have a limit of 0 to 2,
// as the digits of two numbers say.
fn coded(
    alloc: Global,
    items: usize,
    mut replicas: usize,
    members: usize,
    mut kinds: usize,
) -> Result<Problem, Fail> {
    let mut asked = Vec::new(alloc);
    for i in 0..items {
        let name = numbered(alloc, i)?;
        asked.push(Item {
            name,
            replicas: u8::try_from(1 + replicas % 4)?,
        })?;
        replicas /= 4;
    }
    let mut holders = Vec::new(alloc);
    for m in 0..members {
        let name = numbered(alloc, m)?;
        let zone = numbered(alloc, kinds % 2)?;
        let limit = u16::try_from(kinds / 2 % 3)?;
        holders.push(Member { name, zone, limit })?;
        kinds /= 6;
    }
    let problem = Problem::of(asked, holders).ok_or("a problem")?;
    Ok(problem)
}

// The sizes that the plain program and place find.
fn sizes(alloc: Global, problem: &Problem) -> Result<(usize, usize), Fail> {
    let none = Placement::none(alloc);
    let (placement, _cut) = place(alloc, problem, &none, &none)?;
    let greatest = greatest_of(alloc, problem)?;
    Ok((greatest, placement.pairs().len()))
}

#[test]
fn plain_and_fast_agree_on_small_problems(rt: HostRuntime) -> Result<(), Fail> {
    let alloc = rt.alloc();
    for (items, rows) in [(0, 1), (1, 4), (2, 16)] {
        for replicas in 0..rows {
            for (members, columns) in [(0, 1), (1, 6), (2, 36)] {
                for kinds in 0..columns {
                    let problem = coded(alloc, items, replicas, members, kinds)?;
                    let (plain, fast) = sizes(alloc, &problem)?;
                    assert_eq!(rt; plain, fast, "{items} {replicas} {members} {kinds}");
                }
            }
        }
    }
    Ok(())
}
