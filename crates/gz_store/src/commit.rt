//! The operations of a commit.
ghost use Rattle.std.specs.Prelude.{◌≡◌, ◌++◌, ◌<◌, ◌≤◌, ◌+◌, [], ◌∷◌, length, take, drop, IfOk, OnOk};
ghost use Rattle.gz_recovery.specs.Operations.{op_text};
ghost use Rattle.gz_frame.specs.Frame.{Gives, framed};
ghost use Rattle.gz_store.specs.Commits.{next_path, goes_on, piece_end, piece_len, pieces, commit_kinds, numbered, NumbersAll, Commits, ComesBack, framed_all};

use crate::Checkpoint;
use crate::print::print_store;
use gz_app::State;
use gz_frame::{FrameError, frame_fixed};
use gz_label::{Blob, Name, NoMemory};
use gz_recovery::{Op, OpKind, RecordError, Recorder, Text, print_op};
use std::alloc::Global;
use std::marker::Model;

/// The most bytes of one write.
const MAX_PIECE: usize = 65_536;

/// The greatest number of an operation, 2^62.
const MAX_SEQ: u64 = 1 << 62;

/// Operations, which contracts see as their list.
#[derive(Debug, Drop)]
pub struct Ops {
    ops: Vec<Op>,
}

impl Model for Ops {
    ghost use Rattle.std.specs.Prelude.{List};
    ghost use Rattle.gz_recovery.specs.Operations.{Op};

    ghost Value = { List Op };

    ghost view = { λ a. a.ops.items };
}

impl Ops {
    /// The operations, in order. It takes no memory.
    pub fn as_slice(&self) -> &[Op]
        ensures { result.now ≡ self.now }
    {
        self.ops.as_slice()
    }
}

fn goes_on(byte: u8) -> bool
    ensures { result ≡ goes_on byte }
{
    128 <= byte && byte < 192
}

/// The greatest place, of at most so many bytes, at which a character ends.
#[tactic(auto, using(crate::proofs::Pieces::look_back, crate::proofs::Pieces::none_back))]
fn piece_end(text: &str) -> usize
    requires { 65536 < length text.now }
    ensures { result ≡ piece_end 65536 text.now }
{
    let bytes = text.as_bytes();
    let mut end = MAX_PIECE;
    'back: while end > 0 {
        if !goes_on(bytes[end]) {
            return end;
        }
        end -= 1;
    }
    MAX_PIECE
}

/// How many bytes the first piece of a text has.
fn piece_len(text: &str) -> usize
    ensures { result ≡ piece_len text.now }
{
    if text.len() <= MAX_PIECE {
        return text.len();
    }
    piece_end(text)
}

/// The first piece of a text, and the rest.
#[tactic(auto, using(crate::proofs::Pieces::piece_boundary))]
fn first_piece(text: &str) -> (&str, &str)
    ensures piece { result.0.now ≡ take (piece_len text.now) text.now }
    ensures rest { result.1.now ≡ drop (piece_len text.now) text.now }
    ensures len { length result.0.now ≡ piece_len text.now }
    ensures rest_len { length result.1.now + piece_len text.now ≡ length text.now }
{
    text.split_at(piece_len(text))
}

/// Puts writes of the text to the node, piece by piece.
#[tactic(auto, using(crate::proofs::Pieces::first_write, crate::proofs::Pieces::shrinks, crate::proofs::Written::piece_within))]
fn push_writes(
    alloc: Global,
    kinds: &mut Vec<OpKind>,
    fnode: u64,
    text: &str,
) -> Result<(), NoMemory>
    ensures { OnOk result
        (kinds.new.items ≡ kinds.old.items ++ pieces (length text.now) fnode 0 text.now) }
{
    let mut rest = text;
    let mut offset = 0u64;
    'pieces: while !rest.is_empty() {
        let (piece, more) = first_piece(rest);
        let text = Text::of(alloc, piece)?;
        kinds.push(OpKind::Write {
            fnode,
            offset,
            text,
        })?;
        offset += piece.len() as u64;
        rest = more;
    }
    Ok(())
}

/// What the operations of a commit do, of which the first one has this number.
fn commit_kinds(alloc: Global, fnode: u64, text: &str) -> Result<Vec<OpKind>, NoMemory>
    ensures { IfOk result (λ kinds. kinds.items ≡ commit_kinds fnode text.now) }
{
    let mut kinds = Vec::new(alloc);
    let path = Name::of(alloc, "next")?;
    kinds.push(OpKind::Create { path })?;
    push_writes(alloc, &mut kinds, fnode, text)?;
    let path = Name::of(alloc, "state")?;
    kinds.push(OpKind::Link { fnode, path })?;
    let path = Name::of(alloc, "next")?;
    kinds.push(OpKind::Unlink { path })?;
    Ok(kinds)
}

fn push_op(ops: &mut Vec<Op>, op: Op) -> Result<(), NoMemory>
    ensures { OnOk result (ops.new.items ≡ ops.old.items ++ op ∷ []) }
{
    ops.push(op)?;
    Ok(())
}

/// Numbers operations of these kinds on. SeqEnd exactly where one would have a number above 2^62.
fn number_all(
    alloc: Global,
    recorder: &mut Recorder,
    kinds: Vec<OpKind>,
) -> Result<Ops, RecordError>
    ensures { NumbersAll result recorder.old recorder.new kinds.items }
{
    let Some(end) = recorder.next().checked_add(kinds.len() as u64) else {
        return Err(RecordError::SeqEnd);
    };
    if end > MAX_SEQ + 1 {
        return Err(RecordError::SeqEnd);
    }
    let mut ops = Vec::new(alloc);
    for kind in kinds {
        let op = recorder.next_op(kind)?;
        push_op(&mut ops, op)?;
    }
    Ok(Ops { ops })
}

/// The operations that put state and checkpoint in place of those of the last commit: one append. They are numbered on
/// from the recorder, which numbers on behind them. SeqEnd exactly where one would have a number above 2^62. After an
/// error the recorder is as before. Behind a log whose machine has the recorder's author and next number, and no file at
/// the path `next`, they leave a log from which `load` gives state and checkpoint back.
#[tactic(auto, using(crate::proofs::Written::returned_come_back))]
pub fn commit_ops(
    alloc: Global,
    recorder: &mut Recorder,
    state: &State,
    checkpoint: &Checkpoint,
) -> Result<Ops, RecordError>
    ensures ops { Commits result recorder.old recorder.new
        (record { checkpoint = checkpoint.now; state = state.now }) }
    ensures comes_back { IfOk result
        (λ ops. ComesBack recorder.old
        (record { checkpoint = checkpoint.now; state = state.now }) ops) }
{
    let text = print_store(alloc, checkpoint, state)?;
    let kinds = commit_kinds(alloc, recorder.next(), text.as_str())?;
    let mut numbering = *recorder;
    let ops = number_all(alloc, &mut numbering, kinds)?;
    *recorder = numbering;
    Ok(ops)
}

/// The frame of an operation. TooLong exactly where its content has more than 1,048,576 bytes.
fn frame_op(alloc: Global, op: &Op) -> Result<Blob, FrameError>
    ensures { Gives result (framed (op_text op.now)) }
{
    let content = print_op(alloc, op)?;
    let frame = frame_fixed(alloc, content.as_slice())?;
    Ok(frame)
}

/// Operations as the bytes that are appended to a log: the frames of their contents. TooLong exactly where a content has
/// more than 1,048,576 bytes.
#[tactic(auto, using(crate::proofs::Lists::none_joined, crate::proofs::Lists::one_joined, crate::proofs::Lists::joined_fails))]
pub fn print_ops(alloc: Global, ops: &[Op]) -> Result<Blob, FrameError>
    ensures { Gives result (framed_all ops.now) }
{
    let mut bytes = Blob::new(alloc);
    for op in ops {
        let frame = frame_op(alloc, op)?;
        bytes.append(frame.as_slice())?;
    }
    Ok(bytes)
}
