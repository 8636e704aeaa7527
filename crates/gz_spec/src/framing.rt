//! What a journal holds, which its labels say.
ghost use Rattle.std.specs.Prelude.{◌≡◌, codes};
ghost use Rattle.gz_label.specs.Labels.{values_of};
ghost use Rattle.gz_spec.specs.Framings.{framing_named, framing_of, framing_in};

use crate::JournalSpec;
use crate::app::{count_values, first_value};
use gz_label::Label;

/// What a journal holds.
#[derive(Clone, Copy, Debug, PartialEq, Eq)]
pub enum Framing {
    /// Whole lines.
    Lines,
    /// Whole fixed frames.
    FixedFrames,
    /// Whole fixed frames, which only the consumers of a shard write.
    RecoveryLog,
    /// Any bytes.
    Bytes,
}

fn framing_named(text: &[u8]) -> Framing
    ensures { result ≡ framing_named text.now }
{
    if text == b"application/x-ndjson".as_slice() {
        return Framing::Lines;
    }
    if text == b"application/x-protobuf-fixed".as_slice() {
        return Framing::FixedFrames;
    }
    if text == b"application/x-gazette-recoverylog".as_slice() {
        return Framing::RecoveryLog;
    }
    Framing::Bytes
}

#[tactic(auto, using(crate::proofs::Apps::framing_of_one, crate::proofs::Apps::framing_of_more))]
fn framing_in(labels: &[Label]) -> Framing
    ensures { result ≡ framing_of (values_of (codes "content-type") labels.now) }
{
    let n = count_values(labels, b"content-type");
    if n != 1 {
        return Framing::Bytes;
    }
    match first_value(labels, b"content-type") {
        None => Framing::Bytes,
        Some(value) => framing_named(value.as_slice()),
    }
}

impl JournalSpec {
    /// What the journal holds: lines, fixed frames or a recovery log, where that is the only value of
    /// its label `content-type`, and else any bytes.
    pub fn framing(&self) -> Framing
        ensures { result ≡ framing_in self.now.labels }
    {
        framing_in(self.labels.as_slice())
    }
}
