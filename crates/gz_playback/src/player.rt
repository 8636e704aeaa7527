//! A player.
ghost use Rattle.std.specs.Prelude.{◌≡◌, ◌≤◌, ◌<◌, ◌+◌, ◌^◌, length, drop, OnOk};
ghost use Rattle.gz_recovery.specs.Operations.{op_of};
ghost use Rattle.gz_recovery.specs.Files.{after_op};
ghost use Rattle.gz_playback.specs.Handing.{handoff, learnt, HandsOver};
ghost use Rattle.gz_playback.specs.Playing.{at, new_player, spoiled, plays_fsm, plays_op, plays_next, plays_byte, plays, Feeds, is_at_head};

use crate::handing::{author_label, author_text, handoff_frame};
use crate::{Learnt, PlayError};
use gz_frame::{FrameError, unframe};
use gz_journal::{Landed, Request};
use gz_label::{Attempt, Blob, NoMemory, Selector};
use gz_recovery::{Fsm, FsmError, Op, OpKind, RecordError, Recorder, read_op};
use std::alloc::Global;
use std::marker::Model;

/// How many bytes stand before a frame's content.
const HEAD: usize = 8;

/// Plays a recovery log from its bytes in any pieces. It keeps the machine of the whole frames so far, and the part of a
/// frame that is left over. After NoMemory it isn't used again.
#[derive(Drop)]
pub struct Player {
    alloc: Global,
    begin: u64,
    left: Blob,
    fsm: Fsm,
    bad: Option<u64>,
}

impl Model for Player {
    ghost use Rattle.std.specs.Prelude.{◌+◌, ◌<◌, ◌^◌, length};
    ghost use Rattle.gz_playback.specs.Playing.{Player as Seen};

    ghost Value = { Seen };

    ghost view = { λ a. record { begin = a.begin; left = a.left; fsm = a.fsm; bad = a.bad } };

    ghost invariant = { λ a. a.begin + length a.left < 2 ^ 64 };
}

/// What stands behind a frame's head.
#[tactic(auto, using(crate::proofs::Contents::drop_min))]
fn content_of(frame: &[u8]) -> &[u8]
    ensures { result.now ≡ drop 8 frame.now }
{
    let (_head, content) = frame.split_at(HEAD.min(frame.len()));
    content
}

impl Player {
    /// A player of a log from this offset on, where the operations before it made this machine. It takes no memory.
    pub fn new(alloc: Global, offset: u64, fsm: Fsm) -> Player
        ensures { result ≡ new_player offset fsm }
    {
        Player {
            alloc,
            begin: offset,
            left: Blob::new(alloc),
            fsm,
            bad: None,
        }
    }

    /// The offset that it wants next.
    pub fn at(&self) -> u64
        ensures { result ≡ at self.now }
    {
        self.begin + self.left.len() as u64
    }

    /// The machine of the operations so far.
    pub fn fsm(&self) -> &Fsm
        ensures { result.now ≡ self.now.fsm }
    {
        &self.fsm
    }

    fn spoil(&mut self)
        ensures { self.new ≡ spoiled self.old }
    {
        self.bad = Some(self.begin);
        self.left.truncate(0);
    }

    /// Takes the operation of a whole frame.
    fn take_op(&mut self, op: &Op) -> Result<(), NoMemory>
        ensures { OnOk result (self.new ≡ plays_fsm (after_op op.now self.old.fsm) self.old) }
    {
        if self.fsm.accepts(op) {
            match self.fsm.apply(op) {
                Ok(()) => {}
                Err(FsmError::BadOp) => {
                    self.spoil();
                    return Ok(());
                }
                Err(FsmError::NoMemory) => return Err(NoMemory),
            }
        }
        self.begin = self.at();
        self.left.truncate(0);
        Ok(())
    }

    /// Takes a whole frame, which is what is left over.
    fn take_frame(&mut self) -> Result<(), NoMemory>
        ensures { OnOk result (self.new ≡ plays_op (op_of (drop 8 self.old.left)) self.old) }
    {
        match read_op(self.alloc, content_of(self.left.as_slice()))? {
            Some(op) => self.take_op(&op)?,
            None => self.spoil(),
        }
        Ok(())
    }

    /// Looks at what is left over, after one byte more.
    fn take_left(&mut self) -> Result<(), NoMemory>
        ensures { OnOk result (self.new ≡ plays_next self.old) }
    {
        match unframe(self.left.as_slice()) {
            Ok(_) => self.take_frame()?,
            Err(FrameError::NeedMore) => {}
            Err(_) => self.spoil(),
        }
        Ok(())
    }

    /// Takes one byte.
    fn take_byte(&mut self, byte: u8) -> Result<(), NoMemory>
        requires { at self.old < 2 ^ 62 }
        ensures { OnOk result (self.new ≡ plays_byte self.old byte) }
    {
        if self.bad.is_some() {
            return Ok(());
        }
        self.left.append(&[byte])?;
        self.take_left()?;
        Ok(())
    }

    /// Takes bytes one after another.
    fn take_bytes(&mut self, bytes: &[u8]) -> Result<(), NoMemory>
        requires { at self.old + length bytes.now ≤ 2 ^ 62 }
        ensures { OnOk result (self.new ≡ plays self.old bytes.now) }
    {
        'bytes: for i in 0..bytes.len() {
            self.take_byte(bytes[i])?;
        }
        Ok(())
    }

    /// Takes the next bytes of the log. Where the log is cut doesn't matter. BadLog exactly at the first frame that has
    /// another form, is no operation, or is an accepted operation whose own condition fails. Then the machine is that of
    /// the operations before it, the offset that it wants is as before the call, and each later call answers the same.
    pub fn feed(&mut self, offset: u64, bytes: &[u8]) -> Result<(), PlayError>
        requires place { offset ≡ at self.old }
        requires small { offset + length bytes.now ≤ 2 ^ 62 }
        ensures { Feeds result self.old self.new bytes.now }
    {
        self.take_bytes(bytes)?;
        if let Some(bad) = self.bad {
            self.left.truncate(0);
            self.begin = offset;
            return Err(PlayError::BadLog { offset: bad });
        }
        Ok(())
    }

    /// Whether all whole frames up to the head of the log are played, and no part of one is left over. It takes no
    /// memory.
    pub fn at_head(&self, head: u64) -> bool
        ensures { result ≡ is_at_head head self.now }
    {
        head == self.at() && self.left.is_empty() && self.bad.is_none()
    }

    /// The request by which the author takes the log over: it expects the offset that the player wants next, and appends
    /// a handoff with the next number, with which the register `author` becomes this author's sixteen digits. SeqEnd
    /// exactly where the number would be above 2^62.
    #[tactic(auto, using(crate::proofs::Handoffs::next_kind, crate::proofs::Handoffs::next_small, crate::proofs::Handoffs::no_value))]
    pub fn handoff(&self, author: u64, attempt: Attempt) -> Result<Request, RecordError>
        ensures { HandsOver result (handoff author attempt self.now) }
    {
        let mut recorder = Recorder::new(author, &self.fsm);
        let op = recorder.next_op(OpKind::Handoff)?;
        let content = handoff_frame(self.alloc, &op)?;
        let take = author_label(self.alloc, "")?;
        let digits = author_text(self.alloc, author)?;
        let add = author_label(self.alloc, digits.as_str())?;
        Ok(Request {
            attempt,
            offset: Some(self.at()),
            selector: Selector::new(self.alloc),
            take,
            add,
            content,
        })
    }

    /// What is known from the answer to the handoff: whether the log is the author's own, or where to play on to before
    /// the next try. None exactly where it is another answer, which tells nothing of who has the log. The player stays
    /// as it is. It takes no memory.
    pub fn learn(&self, answer: &Landed) -> Option<Learnt>
        ensures { result ≡ learnt answer.now }
    {
        match answer {
            Landed::Landed { .. } => Some(Learnt::Own),
            Landed::WrongOffset { head } => Some(Learnt::Retry { head: *head }),
            Landed::RegisterMismatch { .. } => None,
            Landed::TooLarge { .. } => None,
        }
    }
}
