//! What is kept of each producer.
ghost use Rattle.std.specs.Prelude.{◌≡◌, ◌++◌, [], OnOk, IfOk, map};
ghost use Rattle.gz_sequencer.specs.Machine.{mark_of, part_at};
ghost use Rattle.std.specs.Ordering.{nat_cmp};
ghost use Rattle.std.specs.Cmp.Lexicographic.{slice_cmp};
ghost use Rattle.std.specs.Map.{set_value};
ghost use Rattle.std.specs.BTreeMap.{insert_entry, is_at};
ghost use Rattle.gz_sequencer.specs.Parts.{part_of, part_after, part_again, part_releases, parts_after, releases};

use crate::part::{Part, PlacedMessage};
use crate::point::ProducerMark;
use gz_frame::Message;
use gz_label::NoMemory;
use gz_uuid::ProducerId;
use std::alloc::Global;
use std::collections::{BTreeMap, VecDeque};
use std::marker::Model;

/// What is kept of each producer, in the producers' order.
#[derive(Drop)]
pub struct Parts {
    entries: BTreeMap<ProducerId, Part>,
}

impl Model for Parts {
    ghost use Rattle.gz_sequencer.specs.Parts.{Parts as Seen};

    ghost Value = { Seen };

    ghost view = { λ a. a.entries.entries };
}

impl Parts {
    /// Nothing is kept. It takes no memory.
    pub fn new(alloc: Global) -> Parts
        ensures { result ≡ [] }
    {
        Parts {
            entries: BTreeMap::new(alloc),
        }
    }

    /// What is kept of producers with these marks, before the messages that wait are read again.
    pub fn at(alloc: Global, marks: &BTreeMap<ProducerId, ProducerMark>) -> Result<Parts, NoMemory>
        ensures { IfOk result (λ parts. parts ≡ map (λ e. (e.0, part_at e.1)) marks.now.entries) }
    {
        let mut entries = BTreeMap::new(alloc);
        for (producer, mark) in marks.iter() {
            entries.insert(*producer, Part::at(alloc, mark.ack, mark.pending))?;
        }
        Ok(Parts { entries })
    }

    /// The mark of each producer.
    pub fn marks(&self, alloc: Global) -> Result<BTreeMap<ProducerId, ProducerMark>, NoMemory>
        ensures { IfOk result (λ marks. marks.entries ≡ map (λ e. (e.0, mark_of e.1)) self.now) }
    {
        let mut marks = BTreeMap::new(alloc);
        for (producer, part) in self.entries.iter() {
            let mark = ProducerMark {
                ack: part.ack(),
                pending: part.first(),
            };
            marks.insert(*producer, mark)?;
        }
        Ok(marks)
    }

    // A message is read again.
    #[tactic(auto, using(crate::proofs::PartLookups::set_none))]
    fn take_again(&mut self, line: PlacedMessage) -> Result<(), NoMemory>
        ensures { OnOk result
            (self.new ≡ set_value (is_at (slice_cmp nat_cmp line.message.producer)) self.old
            (part_again (part_of line.message.producer self.old) line)) }
    {
        let producer = line.message.parts().producer;
        if let Some(part) = self.entries.get_mut(&producer) {
            part.take_again(line)?;
        }
        Ok(())
    }

    // A message is read for the first time.
    #[tactic(auto, using(crate::proofs::PartLookups::insert_twice))]
    fn take_new(
        &mut self,
        alloc: Global,
        line: PlacedMessage,
        out: &mut VecDeque<Message>,
    ) -> Result<(), NoMemory>
        ensures parts { OnOk result
            (self.new ≡ insert_entry (slice_cmp nat_cmp) self.old line.message.producer
            (part_after (part_of line.message.producer self.old) line)) }
        ensures out { OnOk result
            (out.new.items ≡ out.old.items
            ++ part_releases (part_of line.message.producer self.old) line.message) }
    {
        let producer = line.message.parts().producer;
        let before = self.entries.insert(producer, Part::new(alloc))?;
        let mut part = before.unwrap_or(Part::new(alloc));
        part.take(alloc, line, out)?;
        self.entries.insert(producer, part)?;
        Ok(())
    }

    /// Takes a message, and puts what it releases at the end. One whose line begins below `until` is read again.
    pub fn take(
        &mut self,
        alloc: Global,
        until: u64,
        line: PlacedMessage,
        out: &mut VecDeque<Message>,
    ) -> Result<(), NoMemory>
        ensures parts { OnOk result (self.new ≡ parts_after until self.old line) }
        ensures out { OnOk result (out.new.items ≡ out.old.items ++ releases until self.old line) }
    {
        if line.begin < until {
            self.take_again(line)?;
        } else {
            self.take_new(alloc, line, out)?;
        }
        Ok(())
    }
}
