//! Numbering operations on.
ghost use Rattle.std.specs.Prelude.{◌≡◌};
ghost use Rattle.gz_recovery.specs.Files.{next_op, recorder_after};

use crate::op::MAX_SEQ;
use crate::{Fsm, Op, OpKind, RecordError};
use std::marker::Model;

/// Numbers the operations of an author on from those that a machine has taken.
#[derive(Clone, Copy, Debug)]
pub struct Recorder {
    author: u64,
    next: u64,
}

impl Model for Recorder {
    ghost use Rattle.gz_recovery.specs.Files.{Recorder as Seen};

    ghost Value = { Seen };

    ghost view = { λ a. record { author = a.author; next = a.next } };

    ghost inverse = { λ r. record { author = r.author; next = r.next } };
}

impl Recorder {
    /// A recorder of this author's operations, the first of which has the machine's next number. It takes no memory.
    pub fn new(author: u64, fsm: &Fsm) -> Recorder
        ensures { result ≡ record { author = author; next = fsm.now.next } }
    {
        Recorder {
            author,
            next: fsm.next(),
        }
    }

    /// Whose operations they are.
    pub fn author(&self) -> u64
        ensures { result ≡ self.now.author }
    {
        self.author
    }

    /// The next number.
    pub fn next(&self) -> u64
        ensures { result ≡ self.now.next }
    {
        self.next
    }

    /// The next operation. SeqEnd exactly where its number would be above 2^62; then nothing changes. It takes no memory.
    pub fn next_op(&mut self, kind: OpKind) -> Result<Op, RecordError>
        ensures answer { result ≡ next_op kind self.old }
        ensures after { self.new ≡ recorder_after self.old }
    {
        if self.next > MAX_SEQ {
            return Err(RecordError::SeqEnd);
        }
        let Some(op) = Op::new(self.author, self.next, kind) else {
            return Err(RecordError::SeqEnd);
        };
        self.next += 1;
        Ok(op)
    }
}
