//! Operations.
ghost use Rattle.std.specs.Prelude.{◌≡◌, ◌≤◌, IfOk, IfSome};
ghost use Rattle.gz_recovery.specs.Operations.{max_seq, op_with};
ghost use Rattle.gz_recovery.specs.Files.{is_handoff};

use crate::Text;
use gz_label::{Name, NoMemory};
use std::marker::Model;

/// The greatest number of an operation, 2^62.
pub(crate) const MAX_SEQ: u64 = 1 << 62;

/// What an operation does, and on what condition.
#[derive(Debug, Drop)]
pub enum OpKind {
    /// A new empty file at the path, if no file is there. Its node has the operation's number.
    Create { path: Name },
    /// The path names the node, if it is live, in place of the one that it named.
    Link { fnode: u64, path: Name },
    /// The path goes, if it is there.
    Unlink { path: Name },
    /// The text is put at the end of the node's text, if the node is live and ends at the offset, in bytes.
    Write { fnode: u64, offset: u64, text: Text },
    /// The property of this path has this text.
    Property { path: Name, text: Text },
    /// Its author is the current one from now on.
    Handoff,
}

/// An operation: who wrote it, its number in the log, of at most 2^62, and what it does.
#[derive(Debug, Drop)]
pub struct Op {
    author: u64,
    seq: u64,
    kind: OpKind,
}

impl Model for Op {
    ghost use Rattle.std.specs.Prelude.{◌≤◌};
    ghost use Rattle.gz_recovery.specs.Operations.{Op as Seen, max_seq};

    ghost Value = { Seen };

    ghost view = { λ a. record { author = a.author; seq = a.seq; kind = a.kind } };

    ghost invariant = { λ a. a.seq ≤ max_seq };
}

impl OpKind {
    /// An equal value.
    pub fn copy(&self) -> Result<OpKind, NoMemory>
        ensures { IfOk result (λ kind. kind ≡ self.now) }
    {
        Ok(match self {
            OpKind::Create { path } => OpKind::Create { path: path.copy()? },
            OpKind::Link { fnode, path } => OpKind::Link {
                fnode: *fnode,
                path: path.copy()?,
            },
            OpKind::Unlink { path } => OpKind::Unlink { path: path.copy()? },
            OpKind::Write {
                fnode,
                offset,
                text,
            } => OpKind::Write {
                fnode: *fnode,
                offset: *offset,
                text: text.copy()?,
            },
            OpKind::Property { path, text } => OpKind::Property {
                path: path.copy()?,
                text: text.copy()?,
            },
            OpKind::Handoff => OpKind::Handoff,
        })
    }
}

impl Op {
    /// The operation of these parts. None exactly where the number is above 2^62. It takes no memory.
    pub fn new(author: u64, seq: u64, kind: OpKind) -> Option<Op>
        ensures { result ≡ op_with author seq kind }
    {
        if seq > MAX_SEQ {
            return None;
        }
        Some(Op { author, seq, kind })
    }

    /// Who wrote it.
    pub fn author(&self) -> u64
        ensures { result ≡ self.now.author }
    {
        self.author
    }

    /// Its number in the log, from 1 to 2^62 where it is accepted.
    pub fn seq(&self) -> u64
        ensures value { result ≡ self.now.seq }
        ensures small { self.now.seq ≤ max_seq }
    {
        self.seq
    }

    /// What it does.
    pub fn kind(&self) -> &OpKind
        ensures { result.now ≡ self.now.kind }
    {
        &self.kind
    }

    /// An equal value.
    pub fn copy(&self) -> Result<Op, NoMemory>
        ensures { IfOk result (λ op. op ≡ self.now) }
    {
        Ok(Op {
            author: self.author,
            seq: self.seq,
            kind: self.kind.copy()?,
        })
    }

    /// Whether it is a handoff.
    pub fn is_handoff(&self) -> bool
        ensures { result ≡ is_handoff self.now.kind }
    {
        match &self.kind {
            OpKind::Handoff => true,
            _ => false,
        }
    }
}
