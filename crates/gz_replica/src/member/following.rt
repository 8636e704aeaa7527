//! What a member does for a primary: it promises, adopts, holds entries, and follows the head.
ghost use Rattle.std.specs.Prelude.{◌≡◌, ◌≤◌, ◌+◌, ◌∷◌, [], true, false, length, nat_lt, IfOk, OnOk, OnErr, MatchOption};
ghost use Rattle.gz_journal.specs.JournalList.{max_end};
ghost use Rattle.gz_wire.specs.declared.msg.Msg.TheVariants as kinds;
ghost use Rattle.gz_replica.specs.Member.{send};
ghost use Rattle.gz_replica.specs.Replicating.{is_no_entry, on_adopt, on_head, on_promise, on_replicate, promised_at, refuses};

use crate::sends::send_one;
use crate::{Member, Part};
use gz_label::{Entry, Image, Name, NoMemory};
use gz_spool::Spool;
use gz_wire::{Msg, Sends};
use std::alloc::Global;

/// The greatest end of a journal, 2^62.
const MAX_END: u64 = 1 << 62;

/// A greater epoch was promised.
const STALE: u64 = 1;

/// Another epoch was adopted.
const NOT_OPEN: u64 = 2;

/// The entry stands behind the end.
const GAP: u64 = 3;

/// Where the entry ends that begins at the offset, or None where no primary puts it there: it is empty, or
/// would end above 2^62.
fn entry_end(offset: u64, entry: &Entry) -> Option<u64>
    ensures { MatchOption result (is_no_entry offset entry.now ≡ true)
        (λ end. (is_no_entry offset entry.now ≡ false)
        × ((end ≡ offset + length entry.now.bytes) × (end ≤ max_end))) }
{
    let len = entry.bytes.len() as u64;
    if len == 0 {
        return None;
    }
    if offset > MAX_END {
        return None;
    }
    if len > MAX_END - offset {
        return None;
    }
    Some(offset + len)
}

fn tell_adopted(
    alloc: Global,
    journal: &Name,
    from: &Name,
    epoch: u64,
    end: u64,
) -> Result<Sends, NoMemory>
    ensures { IfOk result
        (λ sends. sends ≡ send from.now (kinds.Adopted journal.now epoch end) ∷ []) }
{
    let journal = journal.copy()?;
    let msg = Msg::Adopted {
        journal,
        epoch,
        end,
    };
    let sends = send_one(alloc, from, msg)?;
    Ok(sends)
}

fn tell_held(
    alloc: Global,
    journal: &Name,
    from: &Name,
    epoch: u64,
    end: u64,
) -> Result<Sends, NoMemory>
    ensures { IfOk result
        (λ sends. sends ≡ send from.now (kinds.Held journal.now epoch end) ∷ []) }
{
    let journal = journal.copy()?;
    let msg = Msg::Held {
        journal,
        epoch,
        end,
    };
    let sends = send_one(alloc, from, msg)?;
    Ok(sends)
}

impl Member {
    // Whether a greater epoch was promised.
    fn is_stale(&self, epoch: u64) -> bool
        ensures { result ≡ nat_lt epoch self.now.promised }
    {
        epoch < self.promised
    }

    fn refuse(
        &self,
        journal: &Name,
        from: &Name,
        epoch: u64,
        code: u64,
        value: u64,
    ) -> Result<Sends, NoMemory>
        ensures { IfOk result
            (λ sends. sends ≡ (refuses from.now journal.now epoch code value self.now).sends) }
    {
        let journal = journal.copy()?;
        let msg = Msg::Refuse {
            journal,
            epoch,
            code,
            value,
        };
        let sends = send_one(self.alloc, from, msg)?;
        Ok(sends)
    }

    fn tell_promise(&self, journal: &Name, from: &Name, epoch: u64) -> Result<Sends, NoMemory>
        ensures { IfOk result
            (λ sends. sends ≡ (promised_at from.now journal.now epoch self.now).sends) }
    {
        let journal = journal.copy()?;
        let image = self.spool.image()?;
        let msg = Msg::Promised {
            journal,
            epoch,
            adopted: self.adopted,
            image,
        };
        let sends = send_one(self.alloc, from, msg)?;
        Ok(sends)
    }

    /// A primary asks to promise its epoch: Refuse where a greater one was promised; else Promised, with the
    /// epoch that was adopted last and the spool. A greater epoch closes the primary's part.
    pub fn on_promise(&mut self, journal: &Name, from: &Name, epoch: u64) -> Result<Sends, NoMemory>
        ensures member { OnOk result
            (self.new ≡ (on_promise journal.now self.old from.now epoch).member) }
        ensures sends { IfOk result
            (λ sends. sends ≡ (on_promise journal.now self.old from.now epoch).sends) }
        ensures stays { OnErr result (self.new ≡ self.old) }
    {
        if self.is_stale(epoch) {
            let sends = self.refuse(journal, from, epoch, STALE, self.promised)?;
            return Ok(sends);
        }
        let sends = self.tell_promise(journal, from, epoch)?;
        if self.promised < epoch {
            self.promised = epoch;
            self.part = Part::Closed;
            return Ok(sends);
        }
        Ok(sends)
    }

    /// An image is to be adopted: nothing where it is none that a spool adopts; Refuse where a greater epoch
    /// was promised; else Adopted with the end. Where the epoch was adopted before, the spool stays.
    pub fn on_adopt(
        &mut self,
        journal: &Name,
        from: &Name,
        epoch: u64,
        image: Image,
    ) -> Result<Sends, NoMemory>
        ensures member { OnOk result
            (self.new ≡ (on_adopt journal.now self.old from.now epoch image).member) }
        ensures sends { IfOk result
            (λ sends. sends ≡ (on_adopt journal.now self.old from.now epoch image).sends) }
        ensures stays { OnErr result (self.new ≡ self.old) }
    {
        let Some(spool) = Spool::adopt(image) else {
            return Ok(Sends::new(self.alloc));
        };
        if self.is_stale(epoch) {
            let sends = self.refuse(journal, from, epoch, STALE, self.promised)?;
            return Ok(sends);
        }
        if self.adopted == epoch {
            let sends = tell_adopted(self.alloc, journal, from, epoch, self.spool.end())?;
            return Ok(sends);
        }
        let sends = tell_adopted(self.alloc, journal, from, epoch, spool.end())?;
        self.adopted = epoch;
        self.spool = spool;
        if self.promised < epoch {
            self.promised = epoch;
            self.part = Part::Closed;
            return Ok(sends);
        }
        Ok(sends)
    }

    /// An entry comes: nothing where it is empty or would end above 2^62; Refuse where a greater epoch was
    /// promised, where another one was adopted, and where the entry stands behind the end. At the end it is
    /// put in; below the end it is there already. Then Held tells the end, and the head is followed.
    #[tactic(auto, using(gz_spool::proofs::Ends::extended_end))]
    pub fn on_replicate(
        &mut self,
        journal: &Name,
        from: &Name,
        epoch: u64,
        offset: u64,
        entry: Entry,
        head: u64,
    ) -> Result<Sends, NoMemory>
        ensures member { OnOk result (self.new
            ≡ (on_replicate journal.now self.old from.now epoch offset entry head).member) }
        ensures sends { IfOk result (λ sends. sends
            ≡ (on_replicate journal.now self.old from.now epoch offset entry head).sends) }
        ensures stays { OnErr result (self.new ≡ self.old) }
    {
        let Some(new_end) = entry_end(offset, &entry) else {
            return Ok(Sends::new(self.alloc));
        };
        if self.is_stale(epoch) {
            let sends = self.refuse(journal, from, epoch, STALE, self.promised)?;
            return Ok(sends);
        }
        if self.adopted != epoch {
            let sends = self.refuse(journal, from, epoch, NOT_OPEN, self.adopted)?;
            return Ok(sends);
        }
        let end = self.spool.end();
        if offset > end {
            let sends = self.refuse(journal, from, epoch, GAP, end)?;
            return Ok(sends);
        }
        if offset == end {
            let sends = tell_held(self.alloc, journal, from, epoch, new_end)?;
            self.spool.push(entry)?;
            self.spool.raise_head(head);
            return Ok(sends);
        }
        let sends = tell_held(self.alloc, journal, from, epoch, end)?;
        self.spool.raise_head(head);
        Ok(sends)
    }

    /// A head comes: where its epoch was adopted it is followed, and what is below the begin goes, where that
    /// is a boundary of entries. It takes no memory.
    pub fn on_head(&mut self, epoch: u64, head: u64, begin: u64)
        ensures { self.new ≡ (on_head self.old epoch head begin).member }
    {
        if epoch == self.adopted {
            self.spool.raise_head(head);
            self.spool.trim_to(begin);
        }
    }
}
