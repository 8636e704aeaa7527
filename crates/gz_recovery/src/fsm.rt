//! The machine that takes a log's accepted operations.
ghost use Rattle.std.specs.Prelude.{◌≡◌, option_map, true};
ghost use Rattle.gz_recovery.specs.Files.{new_fsm, accepts, is_author, applied, file_at, nth_file, Becomes};

use crate::files::Files;
use crate::{FsmError, Op};
use gz_label::{Blob, Name};
use std::alloc::Global;
use std::marker::Model;

/// The files of a log's accepted operations, the number of the next one, and the current author.
#[derive(Drop)]
pub struct Fsm {
    next: u64,
    author: Option<u64>,
    files: Files,
}

impl Model for Fsm {
    ghost use Rattle.gz_recovery.specs.Files.{Fsm as Seen, AreBelow};

    ghost Value = { Seen };

    ghost view = { λ a. record { next = a.next; author = a.author; files = a.files } };

    ghost invariant = { λ a. AreBelow a.next a.files.nodes };
}

impl Fsm {
    /// The machine before the first operation. It takes no memory.
    pub fn new(alloc: Global) -> Fsm
        ensures { result ≡ new_fsm }
    {
        Fsm {
            next: 1,
            author: None,
            files: Files::new(alloc),
        }
    }

    /// The number of the next operation, from 1 to 2^62 + 1.
    pub fn next(&self) -> u64
        ensures { result ≡ self.now.next }
    {
        self.next
    }

    /// The author whose operations are accepted; None before the first handoff.
    pub fn author(&self) -> Option<u64>
        ensures { result ≡ self.now.author }
    {
        self.author
    }

    /// Path and text of the file at this place, from 0, in path order; None past the last one. It takes no memory.
    pub fn file(&self, place: usize) -> Option<(&Name, &Blob)>
        ensures { option_map
            (λ file. (file.0.now, file.1.now)) result ≡ nth_file place self.now.files }
    {
        self.files.nth(place)
    }

    /// The text of the file at the path, if one is there. It takes no memory.
    pub fn file_at(&self, path: &Name) -> Option<&Blob>
        ensures { option_map (λ text. text.now) result ≡ file_at path.now self.now.files }
    {
        self.files.text_at(path)
    }

    fn is_author(&self, author: u64) -> bool
        ensures { result ≡ is_author self.now.author author }
    {
        match self.author {
            Some(current) => current == author,
            None => false,
        }
    }

    /// Whether the operation is accepted: its number is the next one, and its author is the current one or it is a
    /// handoff. It takes no memory.
    pub fn accepts(&self, op: &Op) -> bool
        ensures { result ≡ accepts self.now op.now }
    {
        op.seq() == self.next && (self.is_author(op.author()) || op.is_handoff())
    }

    /// Takes an accepted operation. BadOp exactly where its own condition fails; then, and after NoMemory, nothing has
    /// changed.
    #[tactic(auto, using(crate::proofs::Below::below_after, crate::proofs::Below::seq_next))]
    pub fn apply(&mut self, op: &Op) -> Result<(), FsmError>
        requires { accepts self.old op.now ≡ true }
        ensures { Becomes result self.old self.new (applied op.now self.old) }
    {
        self.files.take(op.seq(), op.kind())?;
        self.next = op.seq() + 1;
        if op.is_handoff() {
            self.author = Some(op.author());
        }
        Ok(())
    }
}
