//! A sequencer.
ghost use Rattle.std.specs.Prelude.{◌≡◌, ◌≤◌, ◌<◌, ◌+◌, ◌^◌, ◌++◌, ◌∷◌, length, take, drop, IfOk, IfSome, OnOk, Some, slice_get};
ghost use Rattle.gz_model.specs.Lines.{line_len, IsSearched};
ghost use Rattle.gz_sequencer.specs.Machine.{at, fed, after_line, after_message, taken, started, resumed, point_of, part_at, mark_of, least_from, least_with};
ghost use Rattle.gz_frame.specs.Text.{message_of};

use crate::part::PlacedMessage;
use crate::parts::Parts;
use crate::point::SourcePoint;
use gz_frame::{Message, read_line};
use gz_label::{Blob, NoMemory};
use std::alloc::Global;
use std::collections::VecDeque;
use std::marker::Model;

/// The byte that ends a line.
const NEWLINE: u8 = b'\n';

/// Finds out which messages of a text are released, from the text's bytes in any pieces. It keeps the line that
/// isn't whole yet, the messages that wait for an acknowledgement, and those that are released and not yet taken.
/// After NoMemory it isn't used again.
#[derive(Drop)]
pub struct Sequencer {
    alloc: Global,
    until: u64,
    begin: u64,
    line: Blob,
    parts: Parts,
    released: VecDeque<Message>,
}

impl Model for Sequencer {
    ghost use Rattle.std.specs.Prelude.{◌+◌, ◌<◌, ◌^◌, length};
    ghost use Rattle.gz_sequencer.specs.Machine.{Machine};

    ghost Value = { Machine };

    ghost view = { λ a. record { until = a.until; begin = a.begin; line = a.line; parts = a.parts; released = a.released.items } };

    ghost invariant = { λ a. a.begin + length a.line < 2 ^ 64 };
}

// How many bytes the first line has, with its newline, where its newline is among the bytes.
#[tactic(auto, using(crate::proofs::Feeding::line_len_within))]
fn first_line_len(bytes: &[u8]) -> Option<usize>
    ensures value { result ≡ line_len bytes.now }
    ensures within { IfSome result (λ n. n ≤ length bytes.now) }
{
    for i in 0..bytes.len() {
        if bytes[i] == NEWLINE {
            return Some(i + 1);
        }
    }
    None
}

impl Sequencer {
    /// A sequencer of a text that begins at this offset. It takes no memory.
    pub fn new(alloc: Global, offset: u64) -> Sequencer
        ensures { result ≡ started offset }
    {
        Sequencer {
            alloc,
            until: offset,
            begin: offset,
            line: Blob::new(alloc),
            parts: Parts::new(alloc),
            released: VecDeque::new(alloc),
        }
    }

    /// The offset that it wants next.
    pub fn at(&self) -> u64
        ensures { result ≡ at self.now }
    {
        self.begin + self.line.len() as u64
    }

    // Takes a whole line, which has these bytes.
    fn take_message(&mut self, len: u64, message: Option<Message>) -> Result<(), NoMemory>
        requires { self.old.begin + len ≤ 2 ^ 62 }
        ensures { OnOk result (self.new ≡ after_message message self.old len) }
    {
        let begin = self.begin;
        let end = begin + len;
        self.line.truncate(0);
        self.begin = end;
        if let Some(message) = message {
            let line = PlacedMessage {
                begin,
                end,
                message,
            };
            self.parts
                .take(self.alloc, self.until, line, &mut self.released)?;
        }
        Ok(())
    }

    // Takes the rest of a line, up to its newline.
    #[tactic(auto, using(crate::proofs::Feeding::fed_line))]
    fn take_line(&mut self, rest: &[u8]) -> Result<(), NoMemory>
        requires whole { line_len rest.now ≡ Some (length rest.now) }
        requires small { at self.old + length rest.now ≤ 2 ^ 62 }
        ensures { OnOk result (self.new ≡ fed self.old rest.now) }
    {
        if self.line.is_empty() {
            let message = read_line(self.alloc, rest)?;
            self.take_message(rest.len() as u64, message)?;
        } else {
            self.line.append(rest)?;
            let len = self.line.len() as u64;
            let message = read_line(self.alloc, self.line.as_slice())?;
            self.take_message(len, message)?;
        }
        Ok(())
    }

    /// Takes the next bytes of the text. Where the text is cut doesn't matter.
    pub fn feed(&mut self, offset: u64, bytes: &[u8]) -> Result<(), NoMemory>
        requires place { offset ≡ at self.old }
        requires small { offset + length bytes.now ≤ 2 ^ 62 }
        ensures { OnOk result (self.new ≡ fed self.old bytes.now) }
    {
        let _ = offset;
        let mut rest = bytes;
        'lines: while let Some(len) = first_line_len(rest) {
            let (line, more) = rest.split_at(len);
            self.take_line(line)?;
            rest = more;
        }
        self.line.append(rest)?;
        Ok(())
    }

    /// The checkpoint after the last whole line: with the bytes from its offsets on, `resume` goes on from it. Until
    /// the lines below the offset of the point from which the sequencer was made are fed again, it is that point.
    /// Messages that were released and not yet taken aren't in it: take them before, or they are lost to what resumes.
    pub fn checkpoint(&self) -> Result<SourcePoint, NoMemory>
        ensures { IfOk result (λ point. point ≡ point_of self.now) }
    {
        let producers = self.parts.marks(self.alloc)?;
        Ok(SourcePoint::of(self.until.max(self.begin), producers))
    }

    /// A sequencer that goes on from a checkpoint. The offset that it wants is the least of the checkpoint's offset
    /// and the offsets of the first messages that wait. Lines below the checkpoint's offset only wait again.
    pub fn resume(alloc: Global, point: &SourcePoint) -> Result<Sequencer, NoMemory>
        ensures { IfOk result (λ sequencer. sequencer ≡ resumed point.now) }
    {
        let parts = Parts::at(alloc, point.producers())?;
        Ok(Sequencer {
            alloc,
            until: point.offset(),
            begin: point.least(),
            line: Blob::new(alloc),
            parts,
            released: VecDeque::new(alloc),
        })
    }

    /// The first of the released messages that weren't taken. None exactly where all were taken. It takes no memory.
    pub fn take_released(&mut self) -> Option<Message>
        ensures message { result ≡ slice_get self.old.released 0 }
        ensures rest { self.new ≡ taken self.old }
    {
        self.released.pop_front()
    }
}
