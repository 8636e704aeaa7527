//! What a primary sends again when it is told to.
ghost use Rattle.std.specs.Prelude.{◌≡◌, ◌≤◌, ◌++◌, [], nat_lt, if◌then◌else◌, IfOk, OnOk};
ghost use Rattle.gz_journal.specs.JournalList.{max_end};
ghost use Rattle.gz_wire.specs.declared.msg.Msg.TheVariants as kinds;
ghost use Rattle.gz_spool.specs.Spools.{placed_from, spool_end};
ghost use Rattle.gz_replica.specs.Resending.{entries_behind, entries_to, list_again, resent};
ghost use Rattle.gz_replica.specs.Member.{to_each};
ghost use Rattle.gz_replica.specs.Slots.{missing};

use crate::keys::ask_keys;
use crate::sends::{adopt_each, push_each, push_heads, push_replicate, send_one};
use crate::{HeldEnds, Member, Part, Reports, StoreEnd};
use gz_label::{Name, NoMemory};
use gz_spool::Spool;
use gz_wire::{Msg, Sends};
use std::alloc::Global;

/// The request for the store's end again, where the store hasn't told.
fn list_again(
    alloc: Global,
    journal: &Name,
    req: u64,
    stored: &Option<StoreEnd>,
) -> Result<Sends, NoMemory>
    ensures { IfOk result (λ sends. sends ≡ list_again journal.now req stored.now) }
{
    if stored.is_some() {
        return Ok(Sends::new(alloc));
    }
    let to = Name::of(alloc, "store")?;
    let list = Msg::StoreList {
        req,
        journal: journal.copy()?,
    };
    let sends = send_one(alloc, &to, list)?;
    Ok(sends)
}

/// Promise again to those that haven't told.
fn push_promises(
    sends: &mut Sends,
    alloc: Global,
    journal: &Name,
    epoch: u64,
    reports: &Reports,
) -> Result<(), NoMemory>
    ensures { OnOk result
        (sends.new ≡ sends.old ++ to_each (kinds.Promise journal.now epoch) (missing reports.now)) }
{
    let names = reports.missing(alloc)?;
    let promise = Msg::Promise {
        journal: journal.copy()?,
        epoch,
    };
    push_each(sends, &promise, names.as_slice())?;
    Ok(())
}

/// Each entry of the spool from the offset on, to a member.
#[tactic(auto, using(crate::proofs::Entries::entry_sent, crate::proofs::Entries::entry_passed))]
fn push_entries(
    sends: &mut Sends,
    to: &Name,
    journal: &Name,
    epoch: u64,
    offset: u64,
    spool: &Spool,
) -> Result<(), NoMemory>
    requires { spool_end spool.now.image ≤ max_end }
    ensures { OnOk result (sends.new
        ≡ sends.old ++ entries_to journal.now epoch spool.now.image.head to.now
        (placed_from offset spool.now.image.begin spool.now.image.entries)) }
{
    let head = spool.head();
    let mut at = spool.begin();
    for i in 0..spool.len() {
        let entry = spool.entry(i);
        if offset <= at {
            push_replicate(sends, to, journal, epoch, at, entry, head)?;
        }
        at += entry.bytes.len() as u64;
    }
    Ok(())
}

/// To a member all entries from the end on that it is known to hold, where that is below the spool's.
fn push_behind(
    sends: &mut Sends,
    journal: &Name,
    epoch: u64,
    spool: &Spool,
    held: &(Name, u64),
) -> Result<(), NoMemory>
    ensures { OnOk result (sends.new ≡ sends.old
        ++ (if nat_lt held.now.1 (spool_end spool.now.image)
        then entries_to journal.now epoch spool.now.image.head held.now.0
        (placed_from held.now.1 spool.now.image.begin spool.now.image.entries)
        else [])) }
{
    if held.1 >= spool.end() {
        return Ok(());
    }
    push_entries(sends, &held.0, journal, epoch, held.1, spool)?;
    Ok(())
}

impl Member {
    // To each of the members all entries from the end on that it is known to hold.
    #[tactic(auto, using(crate::proofs::Entries::behind_left))]
    fn entries_behind(&self, journal: &Name, epoch: u64, held: &HeldEnds) -> Result<Sends, NoMemory>
        ensures { IfOk result
            (λ sends. sends ≡ entries_behind journal.now epoch self.now held.now) }
    {
        let mut sends = Sends::new(self.alloc);
        for one in held.as_slice() {
            push_behind(&mut sends, journal, epoch, &self.spool, one)?;
        }
        Ok(sends)
    }

    /// What isn't answered yet is sent again, under the numbers that it had: requests and promises of a part
    /// that opens, the image to those that haven't adopted, the transaction of one that syncs; of an open part
    /// all entries that a member isn't known to hold, and then the head to all. Time goes with the spool.
    pub fn resent(&self, journal: &Name) -> Result<Sends, NoMemory>
        ensures { IfOk result (λ sends. sends ≡ resent journal.now self.now self.now.part) }
    {
        match &self.part {
            Part::Closed => Ok(Sends::new(self.alloc)),
            Part::Opening {
                route,
                req,
                reports,
                stored,
            } => {
                let mut sends = list_again(self.alloc, journal, *req, stored)?;
                push_promises(&mut sends, self.alloc, journal, route.epoch, reports)?;
                Ok(sends)
            }
            Part::Adopting { route, reached } => {
                let names = reached.missing(self.alloc)?;
                let others = names.as_slice();
                let sends = adopt_each(self.alloc, journal, route.epoch, &self.spool, others)?;
                Ok(sends)
            }
            Part::Syncing { route, req } => {
                let sends = ask_keys(self.alloc, journal, route.epoch, *req)?;
                Ok(sends)
            }
            Part::Open { route, held } => {
                let mut sends = self.entries_behind(journal, route.epoch, held)?;
                let head = self.spool.head();
                let begin = self.spool.begin();
                let others = route.others.as_slice();
                push_heads(&mut sends, journal, route.epoch, head, begin, others)?;
                Ok(sends)
            }
        }
    }
}
