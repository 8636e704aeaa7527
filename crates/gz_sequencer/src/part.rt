//! What is kept of one producer.
ghost use Rattle.std.specs.Prelude.{◌≡◌, ◌++◌, [], OnOk, filter, nat_le};
ghost use Rattle.gz_frame.specs.Release.{is_above};
ghost use Rattle.gz_sequencer.specs.Parts.{nothing, does_wait, ended, continued, part_after, part_again, part_releases};

use gz_frame::Message;
use gz_label::NoMemory;
use gz_uuid::Flags;
use std::alloc::Global;
use std::collections::VecDeque;
use std::marker::Model;
use std::mem;

/// A message with the offsets of its line: of the first byte, and after the newline.
#[derive(Debug, Drop)]
pub struct PlacedMessage {
    pub begin: u64,
    pub end: u64,
    pub message: Message,
}

impl Model for PlacedMessage {
    ghost use Rattle.gz_frame.specs.Text.{Placed};

    ghost Value = { Placed };

    ghost view = { λ a. record { begin = a.begin; end = a.end; message = a.message } };
}

/// What is kept of a producer: the greatest clock of its ACK and OUTSIDE messages, the offset of the first
/// message that waits for an acknowledgement, the clock of the last one, and these messages.
#[derive(Drop)]
pub struct Part {
    ack: Option<u64>,
    first: Option<u64>,
    last: Option<u64>,
    pending: VecDeque<Message>,
}

impl Model for Part {
    ghost use Rattle.gz_sequencer.specs.Parts.{Part as Seen};

    ghost Value = { Seen };

    ghost view = { λ a. record { ack = a.ack; first = a.first; last = a.last; pending = a.pending.items } };
}

// Whether a clock is above the greatest one, if there is any.
fn is_over(top: Option<u64>, clock: u64) -> bool
    ensures { result ≡ is_above top clock }
{
    match top {
        None => true,
        Some(greatest) => greatest < clock,
    }
}

// Puts those of the messages that are at most at the clock at the end.
fn release(
    mut pending: VecDeque<Message>,
    clock: u64,
    out: &mut VecDeque<Message>,
) -> Result<(), NoMemory>
    ensures { OnOk result
        (out.new.items ≡ out.old.items ++ filter (λ m. nat_le m.clock clock) pending.items) }
{
    while let Some(message) = pending.pop_front() {
        if message.parts().clock.value() <= clock {
            out.push_back(message)?;
        }
    }
    Ok(())
}

impl Part {
    /// Nothing is kept. It takes no memory.
    pub fn new(alloc: Global) -> Part
        ensures { result ≡ nothing }
    {
        Part {
            ack: None,
            first: None,
            last: None,
            pending: VecDeque::new(alloc),
        }
    }

    /// What is kept of a producer with these marks, before its messages that wait are read again.
    pub fn at(alloc: Global, ack: Option<u64>, first: Option<u64>) -> Part
        ensures { result ≡ record { ack = ack; first = first; last = None; pending = [] } }
    {
        Part {
            ack,
            first,
            last: None,
            pending: VecDeque::new(alloc),
        }
    }

    /// The greatest clock of its ACK and OUTSIDE messages.
    pub fn ack(&self) -> Option<u64>
        ensures { result ≡ self.now.ack }
    {
        self.ack
    }

    /// The offset of the first message that waits.
    pub fn first(&self) -> Option<u64>
        ensures { result ≡ self.now.first }
    {
        self.first
    }

    // Ends what waits, and gives it away.
    fn end(&mut self, alloc: Global, clock: u64) -> VecDeque<Message>
        ensures part { self.new ≡ ended self.old clock }
        ensures pending { result.items ≡ self.old.pending }
    {
        self.ack = Some(match self.ack {
            None => clock,
            Some(greatest) => greatest.max(clock),
        });
        self.first = None;
        self.last = None;
        mem::replace(&mut self.pending, VecDeque::new(alloc))
    }

    // Lets a message wait that goes on with what waits.
    fn go_on(&mut self, line: PlacedMessage) -> Result<(), NoMemory>
        ensures { OnOk result (self.new ≡ continued self.old line) }
    {
        let clock = line.message.parts().clock.value();
        if is_over(self.ack, clock) && is_over(self.last, clock) {
            self.first = Some(self.first.unwrap_or(line.begin));
            self.last = Some(clock);
            self.pending.push_back(line.message)?;
        }
        Ok(())
    }

    /// Takes a message of the producer, and puts what it releases at the end.
    pub fn take(
        &mut self,
        alloc: Global,
        line: PlacedMessage,
        out: &mut VecDeque<Message>,
    ) -> Result<(), NoMemory>
        ensures part { OnOk result (self.new ≡ part_after self.old line) }
        ensures out { OnOk result
            (out.new.items ≡ out.old.items ++ part_releases self.old line.message) }
    {
        let parts = line.message.parts();
        let clock = parts.clock.value();
        if parts.flags.bits() == Flags::ACK_TXN.bits() {
            let pending = self.end(alloc, clock);
            release(pending, clock, out)?;
        } else if parts.flags.bits() == Flags::OUTSIDE_TXN.bits() {
            let is_new = is_over(self.ack, clock);
            let _discarded = self.end(alloc, clock);
            if is_new {
                out.push_back(line.message)?;
            }
        } else {
            self.go_on(line)?;
        }
        Ok(())
    }

    /// Takes a message of the producer that is read again: it waits once more, where it did before.
    pub fn take_again(&mut self, line: PlacedMessage) -> Result<(), NoMemory>
        ensures { OnOk result (self.new ≡ part_again self.old line) }
    {
        let Some(first) = self.first else {
            return Ok(());
        };
        let flags = line.message.parts().flags.bits();
        let is_end = flags == Flags::ACK_TXN.bits() || flags == Flags::OUTSIDE_TXN.bits();
        if first <= line.begin && !is_end {
            self.go_on(line)?;
        }
        Ok(())
    }
}
