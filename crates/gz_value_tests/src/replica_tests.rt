// An opening of a route of three and an append, as rows of what comes and what is sent.

use gz_label::{Attempt, Blob, Entry, LabelSet, Name};
use gz_replica::{Member, Report, Route, StoreEnd};
use gz_spool::Spool;
use gz_wire::{Msg, Names, Sends};
use std::alloc::Global;
use std::test::Fail;

// What comes to a member of the journal x: to its primary b1, and to one that b1 leads.
#[derive(Clone, Copy)]
enum Item {
    // b1 asks to promise this epoch.
    Promise(u64),
    // An empty image of epoch 4.
    Adopt,
    // An entry of three bytes at offset 0.
    Replicate,
    // Three bytes are acknowledged, and the store has them.
    Head,
    // A route of b1, b2 and b3, of epoch 4.
    Route,
    // A promise of this member, which adopted epoch 2 and has an entry of three bytes.
    Promised(&'static str),
    // The store has nothing.
    StoreEnd,
    Adopted(&'static str),
    Synced,
    // An entry of three bytes.
    Put,
    // This member holds six bytes.
    Held(&'static str),
    Resent,
}

fn entry(alloc: Global) -> Result<Entry, Fail> {
    Ok(Entry {
        attempt: Attempt {
            node: Name::of(alloc, "k1")?,
            req: 1,
        },
        bytes: Blob::of(alloc, b"abc")?,
        registers: LabelSet::new(alloc),
    })
}

fn route(alloc: Global) -> Result<Route, Fail> {
    let mut others = Vec::new(alloc);
    others.push(Name::of(alloc, "b2")?)?;
    others.push(Name::of(alloc, "b3")?)?;
    Ok(Route {
        epoch: 4,
        others: Names::from_vec(others),
        opened: 2,
    })
}

fn report(alloc: Global) -> Result<Report, Fail> {
    let mut spool = Spool::new(alloc, 0);
    let entry = entry(alloc)?;
    if entry.bytes.len() < 100 && spool.end() < 100 {
        spool.push(entry)?;
    }
    Ok(Report::new(2, spool))
}

fn put(alloc: Global, journal: &Name, member: &mut Member) -> Result<Sends, Fail> {
    let entry = entry(alloc)?;
    if entry.bytes.len() > 100 || member.spool().end() > 100 {
        return Ok(Sends::new(alloc));
    }
    Ok(member.put(journal, entry)?)
}

fn name(alloc: Global, text: &str) -> Result<Name, Fail> {
    Ok(Name::read(alloc, text.as_bytes()).ok().ok_or("a name")?)
}

// What b1 says to a member that it leads.
fn follow(alloc: Global, journal: &Name, member: &mut Member, item: Item) -> Result<Sends, Fail> {
    let from = name(alloc, "b1")?;
    match item {
        Item::Promise(epoch) => Ok(member.on_promise(journal, &from, epoch)?),
        Item::Adopt => {
            let image = Spool::new(alloc, 0).image()?;
            Ok(member.on_adopt(journal, &from, 4, image)?)
        }
        Item::Replicate => Ok(member.on_replicate(journal, &from, 4, 0, entry(alloc)?, 0)?),
        _ => {
            member.on_head(4, 3, 3);
            Ok(Sends::new(alloc))
        }
    }
}

fn take(alloc: Global, journal: &Name, member: &mut Member, item: Item) -> Result<Sends, Fail> {
    match item {
        Item::Route => Ok(member.open_route(journal, route(alloc)?, 1)?),
        Item::Promised(from) => {
            let from = name(alloc, from)?;
            Ok(
                member
                    .on_promised(journal, &from, 4, report(alloc)?, 2)?
                    .sends,
            )
        }
        Item::StoreEnd => {
            let end = StoreEnd::new(0).ok_or("an end")?;
            Ok(member.on_store_end(journal, end, 1, 2)?.sends)
        }
        Item::Adopted(from) => {
            let from = name(alloc, from)?;
            Ok(member.on_adopted(journal, &from, 4, 3, 2)?.sends)
        }
        Item::Synced => Ok(member.on_synced(journal)?),
        Item::Put => put(alloc, journal, member),
        Item::Held(from) => {
            let from = name(alloc, from)?;
            Ok(member.on_held(journal, &from, 4, 6)?)
        }
        Item::Resent => Ok(member.resent(journal)?),
        _ => follow(alloc, journal, member, item),
    }
}

// The number that tells most of a message.
fn number(msg: &Msg) -> u64 {
    match msg {
        Msg::StoreList { req, .. } => *req,
        Msg::KsTxn { req, .. } => *req,
        Msg::Promise { epoch, .. } => *epoch,
        Msg::Adopt { image, .. } => image.head,
        Msg::Replicate { offset, .. } => *offset,
        Msg::Head { head, .. } => *head,
        Msg::Promised { image, .. } => image.begin,
        Msg::Held { end, .. } => *end,
        Msg::Refuse { value, .. } => *value,
        _ => 0,
    }
}

// Each message with whom it goes to, its kind and its number.
fn lines_of(alloc: Global, sends: &Sends) -> Result<String, Fail> {
    let mut text = String::new(alloc);
    for send in sends.as_slice() {
        let kind = send.msg.kind();
        let number = number(&send.msg);
        let line = format!(in alloc; "{} {kind:?} {number};", send.to)?;
        text.push_str(line.as_str())?;
    }
    Ok(text)
}

// How many rows of a new member are other than they say.
fn count_wrong(alloc: Global, rows: &[(Item, &'static str)]) -> Result<usize, Fail> {
    let journal = name(alloc, "x")?;
    let mut member = Member::new(alloc);
    let mut wrong: usize = 0;
    for row in rows {
        let sends = take(alloc, &journal, &mut member, row.0)?;
        let lines = lines_of(alloc, &sends)?;
        if lines.as_str() != row.1 {
            wrong = wrong.saturating_add(1);
        }
    }
    Ok(wrong)
}

fn opening() -> [(Item, &'static str); 10] {
    [
        (Item::Route, "store StoreList 1;b2 Promise 4;b3 Promise 4;"),
        (Item::Promised("b2"), ""),
        (Item::Resent, "store StoreList 1;b3 Promise 4;"),
        (Item::StoreEnd, ""),
        (Item::Promised("b3"), "b2 Adopt 0;b3 Adopt 0;"),
        (Item::Adopted("b3"), ""),
        (Item::Resent, "b2 Adopt 0;"),
        (Item::Adopted("b2"), "keys KsTxn 2;"),
        (Item::Resent, "keys KsTxn 2;"),
        (Item::Synced, "b2 Head 3;b3 Head 3;"),
    ]
}

// The way to an open part again, and an append that two others hold.
fn append() -> [(Item, &'static str); 11] {
    [
        (Item::Route, "store StoreList 1;b2 Promise 4;b3 Promise 4;"),
        (Item::Promised("b2"), ""),
        (Item::Promised("b3"), ""),
        (Item::StoreEnd, "b2 Adopt 0;b3 Adopt 0;"),
        (Item::Adopted("b2"), ""),
        (Item::Adopted("b3"), "keys KsTxn 2;"),
        (Item::Synced, "b2 Head 3;b3 Head 3;"),
        (Item::Put, "b2 Replicate 3;b3 Replicate 3;"),
        (Item::Held("b2"), ""),
        (Item::Resent, "b3 Replicate 3;b2 Head 3;b3 Head 3;"),
        (Item::Held("b3"), "b2 Head 6;b3 Head 6;"),
    ]
}

fn following() -> [(Item, &'static str); 6] {
    [
        (Item::Promise(4), "b1 Promised 0;"),
        (Item::Adopt, "b1 Adopted 0;"),
        (Item::Replicate, "b1 Held 3;"),
        (Item::Head, ""),
        (Item::Promise(3), "b1 Refuse 4;"),
        (Item::Promise(4), "b1 Promised 3;"),
    ]
}

#[test]
fn opens(rt: HostRuntime) -> Result<(), Fail> {
    assert_eq!(rt; count_wrong(rt.alloc(), &opening())?, 0);
    Ok(())
}

#[test]
fn appends(rt: HostRuntime) -> Result<(), Fail> {
    assert_eq!(rt; count_wrong(rt.alloc(), &append())?, 0);
    Ok(())
}

#[test]
fn follows(rt: HostRuntime) -> Result<(), Fail> {
    assert_eq!(rt; count_wrong(rt.alloc(), &following())?, 0);
    Ok(())
}
