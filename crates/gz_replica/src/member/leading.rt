//! What an open primary does: it puts entries, and raises the head as the others hold them.
ghost use Rattle.std.specs.Prelude.{◌≡◌, ◌≤◌, ◌+◌, length, IfOk, OnOk, OnErr};
ghost use Rattle.gz_journal.specs.JournalList.{max_end};
ghost use Rattle.gz_spool.specs.Spools.{spool_end};
ghost use Rattle.gz_replica.specs.declared.part.Part.TheVariants as parts;
ghost use Rattle.gz_replica.specs.Slots.{held_raised, least};
ghost use Rattle.gz_replica.specs.Primary.{on_held, on_stored, put_entry, with_head};

use crate::sends::{push_heads, replicate_each};
use crate::{HeldEnds, Member, Part, Route};
use gz_label::{Entry, Name, NoMemory};
use gz_wire::Sends;
use std::mem;

impl Member {
    /// Puts an entry at the end of an open part, and sends it to the others. Where there are none it is
    /// acknowledged at once.
    #[tactic(auto, using(gz_spool::proofs::Ends::extended_end))]
    pub fn put(&mut self, journal: &Name, entry: Entry) -> Result<Sends, NoMemory>
        requires { spool_end self.old.spool + length entry.bytes ≤ max_end }
        ensures member { OnOk result
            (self.new ≡ (put_entry journal.now self.old entry self.old.part).member) }
        ensures sends { IfOk result
            (λ sends. sends ≡ (put_entry journal.now self.old entry self.old.part).sends) }
        ensures stays { OnErr result (self.new ≡ self.old) }
    {
        let Part::Open { route, held } = &self.part else {
            return Ok(Sends::new(self.alloc));
        };
        let offset = self.spool.end();
        let head = self.spool.head();
        let end = offset + entry.bytes.len() as u64;
        let others = route.others.as_slice();
        let mut sends = replicate_each(
            self.alloc,
            journal,
            route.epoch,
            offset,
            &entry,
            head,
            others,
        )?;
        let least = held.least(end);
        if head < least {
            let raised = head.max(least.min(end));
            let begin = self.spool.begin();
            push_heads(&mut sends, journal, route.epoch, raised, begin, others)?;
            self.spool.push(entry)?;
            self.spool.raise_head(least);
            return Ok(sends);
        }
        self.spool.push(entry)?;
        Ok(sends)
    }

    // The member's held end becomes the greater, and the head follows the least of all.
    fn raise_held(
        &mut self,
        journal: &Name,
        from: &Name,
        end: u64,
        route: Route,
        held: HeldEnds,
    ) -> Result<Sends, NoMemory>
        ensures member { OnOk result (self.new
            ≡ (with_head journal.now self.old route (held_raised from.now end held)
            (least (spool_end self.old.spool) (held_raised from.now end held))).member) }
        ensures sends { IfOk result (λ sends. sends
            ≡ (with_head journal.now self.old route (held_raised from.now end held)
            (least (spool_end self.old.spool) (held_raised from.now end held))).sends) }
        ensures stays { OnErr result
            (self.new ≡ record self.old { part = parts.Open route held }) }
    {
        let mut held = held;
        let mut sends = Sends::new(self.alloc);
        let head = self.spool.head();
        let own = self.spool.end();
        let least = held.least_raised(own, from, end);
        if head < least {
            let raised = head.max(least.min(own));
            let others = route.others.as_slice();
            let begin = self.spool.begin();
            match push_heads(&mut sends, journal, route.epoch, raised, begin, others) {
                Ok(()) => {
                    held.raise(from, end);
                    self.spool.raise_head(least);
                    self.part = Part::Open { route, held };
                    return Ok(sends);
                }
                Err(e) => {
                    self.part = Part::Open { route, held };
                    return Err(e);
                }
            }
        }
        held.raise(from, end);
        self.part = Part::Open { route, held };
        Ok(sends)
    }

    /// A member holds the journal up to this end, of a part that is open at this epoch: the head is the least
    /// end that all hold, and the others are told where it rose.
    pub fn on_held(
        &mut self,
        journal: &Name,
        from: &Name,
        epoch: u64,
        end: u64,
    ) -> Result<Sends, NoMemory>
        ensures member { OnOk result
            (self.new ≡ (on_held journal.now self.old from.now epoch end self.old.part).member) }
        ensures sends { IfOk result (λ sends. sends
            ≡ (on_held journal.now self.old from.now epoch end self.old.part).sends) }
        ensures stays { OnErr result (self.new ≡ self.old) }
    {
        let part = mem::replace(&mut self.part, Part::Closed);
        match part {
            Part::Open { route, held } => {
                if epoch != route.epoch {
                    self.part = Part::Open { route, held };
                    return Ok(Sends::new(self.alloc));
                }
                let sends = self.raise_held(journal, from, end, route, held)?;
                Ok(sends)
            }
            part => {
                self.part = part;
                Ok(Sends::new(self.alloc))
            }
        }
    }

    /// The store has the journal up to this end: what is below it goes, where that is a boundary of entries,
    /// and the others are told.
    #[tactic(auto, using(gz_spool::proofs::Ends::trimmed_head))]
    pub fn on_stored(&mut self, journal: &Name, end: u64) -> Result<Sends, NoMemory>
        ensures member { OnOk result
            (self.new ≡ (on_stored journal.now self.old end self.old.part).member) }
        ensures sends { IfOk result
            (λ sends. sends ≡ (on_stored journal.now self.old end self.old.part).sends) }
        ensures stays { OnErr result (self.new ≡ self.old) }
    {
        let mut sends = Sends::new(self.alloc);
        let Part::Open { route, .. } = &self.part else {
            return Ok(sends);
        };
        let head = self.spool.head();
        let begin = self.spool.begin_after(end);
        let others = route.others.as_slice();
        push_heads(&mut sends, journal, route.epoch, head, begin, others)?;
        self.spool.trim_to(end);
        Ok(sends)
    }
}
