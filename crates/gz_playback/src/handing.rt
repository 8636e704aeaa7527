//! What a handoff is made of.
ghost use Rattle.std.specs.Prelude.{◌≡◌, ◌≤◌, length, true, IfOk, string_bytes};
ghost use Rattle.gz_label.specs.Labels.{is_label_value};
ghost use Rattle.gz_frame.specs.Frame.{frame_of};
ghost use Rattle.gz_recovery.specs.Operations.{op_text, author_text, max_seq};
ghost use Rattle.gz_playback.specs.Handing.{author_label};

use gz_frame::{FrameError, frame_fixed};
use gz_label::{Blob, Label, LabelError, LabelSet, Name, NoMemory};
use gz_recovery::{Op, OpKind, print_op};
use std::alloc::Global;

/// What is known from the answer to a handoff.
#[derive(Clone, Copy, Debug, PartialEq, Eq)]
pub enum Learnt {
    /// It landed: the log is the author's own.
    Own,
    /// Something landed before it. The log is to be played on to this head before the next try.
    Retry { head: u64 },
}

/// The author as sixteen lower-case hexadecimal digits.
#[tactic(auto, using(crate::proofs::Handoffs::author_short, crate::proofs::Handoffs::author_value), unfolding(gz_recovery::specs::Operations::author_text))]
pub(crate) fn author_text(alloc: Global, author: u64) -> Result<String, NoMemory>
    ensures value { IfOk result (λ text. string_bytes text ≡ author_text author) }
    ensures short { IfOk result (λ text. length (string_bytes text) ≤ 1024) }
    ensures lawful { IfOk result (λ text. is_label_value (string_bytes text) ≡ true) }
{
    Ok(hex::encode(alloc, author.to_be_bytes())?)
}

/// The label `author` with this value, as a set.
#[tactic(auto, using(crate::proofs::Handoffs::register_set))]
pub(crate) fn author_label(alloc: Global, value: &str) -> Result<LabelSet, NoMemory>
    requires short { length value.now ≤ 1024 }
    requires lawful { is_label_value value.now ≡ true }
    ensures { IfOk result (λ set. set ≡ author_label value.now) }
{
    let label = Label {
        name: Name::of(alloc, "author")?,
        value: Name::of(alloc, value)?,
    };
    let mut set = LabelSet::new(alloc);
    match set.insert(label) {
        Ok(()) => Ok(set),
        Err(LabelError::NoMemory) => Err(NoMemory),
        Err(_) => unreachable!(),
    }
}

/// The frame of a handoff.
#[tactic(auto, using(crate::proofs::Handoffs::handoff_framed))]
pub(crate) fn handoff_frame(alloc: Global, op: &Op) -> Result<Blob, NoMemory>
    requires kind { op.now.kind ≡ OpKind.Handoff }
    requires number { op.now.seq ≤ max_seq }
    ensures { IfOk result (λ frame. frame ≡ frame_of (op_text op.now)) }
{
    let content = print_op(alloc, op)?;
    match frame_fixed(alloc, content.as_slice()) {
        Ok(frame) => Ok(frame),
        Err(FrameError::NoMemory) => Err(NoMemory),
        Err(_) => unreachable!(),
    }
}
