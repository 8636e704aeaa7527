//! What a broker keeps of one journal.
ghost use Rattle.std.specs.Prelude.{◌≡◌, IfOk, OnOk};
ghost use Rattle.gz_broker.specs.Brokers.{new_row};
ghost use Rattle.gz_broker.specs.Closing.{answers_of, left_of};
ghost use Rattle.gz_brokering.specs.Rules.{closings_with, kept_with, stays};

use crate::Queue;
use gz_label::{Name, NoMemory};
use gz_replica::{Member, Part};
use gz_wire::Sends;
use std::alloc::Global;
use std::marker::Model;

/// A put to the store that isn't answered: the number of its request, and the end up to which it goes.
#[derive(Debug, Drop)]
pub struct Outstanding {
    pub req: u64,
    pub end: u64,
}

impl Model for Outstanding {
    ghost use Rattle.gz_broker.specs.Brokers.{Outstanding};

    ghost Value = { Outstanding };

    ghost view = { λ a. record { req = a.req; end = a.end } };
}

/// What a broker keeps of a journal: its member, the answers that wait, and the put that isn't answered.
#[derive(Debug, Drop)]
pub struct Row {
    pub member: Member,
    pub queue: Queue,
    pub putting: Option<Outstanding>,
}

impl Model for Row {
    ghost use Rattle.gz_broker.specs.Brokers.{Row};

    ghost Value = { Row };

    ghost view = { λ a. record { member = a.member; queue = a.queue; putting = a.putting } };
}

/// Whether a part that was open at the first epoch, if at any, is open at it still.
fn stays(before: Option<u64>, after: Option<u64>) -> bool
    ensures { result ≡ stays before after }
{
    match before {
        None => false,
        Some(epoch) => match after {
            None => false,
            Some(now) => epoch == now,
        },
    }
}

impl Row {
    /// A journal of which nothing is known. It takes no memory.
    pub fn new(alloc: Global) -> Row
        ensures { result ≡ new_row }
    {
        Row {
            member: Member::new(alloc),
            queue: Queue::new(alloc),
            putting: None,
        }
    }

    /// Unless its part is still open at the epoch at which it was, all that waits goes out as closed, and the put
    /// is forgotten.
    pub fn close_unless(
        &mut self,
        alloc: Global,
        journal: &Name,
        before: Option<u64>,
    ) -> Result<Sends, NoMemory>
        ensures closings { IfOk result
            (λ closings. closings ≡ closings_with journal.now before self.old) }
        ensures row { OnOk result (self.new ≡ kept_with before self.old) }
    {
        if stays(before, self.member.open_epoch()) {
            return Ok(Sends::new(alloc));
        }
        let promised = self.member.promised();
        let closings = self.queue.close(journal, promised)?;
        self.putting = None;
        Ok(closings)
    }

    /// The answers that the head of an open part reached. They wait no more.
    pub fn answers(&mut self, alloc: Global, journal: &Name) -> Result<Sends, NoMemory>
        ensures answers { IfOk result
            (λ sends. sends ≡ answers_of journal.now self.old self.old.member.part) }
        ensures row { OnOk result (self.new ≡ left_of self.old self.old.member.part) }
    {
        let mut sends = Sends::new(alloc);
        let Part::Open { .. } = self.member.part() else {
            return Ok(sends);
        };
        let head = self.member.spool().head();
        self.queue.send_reached(journal, head, &mut sends)?;
        Ok(sends)
    }
}
