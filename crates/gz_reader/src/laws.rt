//! The reader is the release rule.
ghost use Rattle.std.specs.Prelude.{◌≡◌, ◌++◌, ◌-◌, ℕ, List, drop};
ghost use Rattle.gz_sequencer.specs.Committed as sequencer;
ghost use Rattle.gz_sequencer.specs.Machine.{started, fed, at, point_of, resumed};
ghost use Rattle.gz_reader.specs.Reader.{committed};
ghost use Rattle.gz_reader.specs.Coding.{Coding, TellsProducers, all_coded, text_of, plain_coding};

/// There is a coding: a number for each producer's bytes.
#[tactic(auto, using(crate::proofs::Numbers::plain_tells))]
pub fn a_coding_tells_producers_apart()
    ensures { TellsProducers plain_coding }
{}

/// What the reader accepts of a journal's text is what the release rule releases of it, message by message, however
/// producers, keys and values are told by numbers.
#[tactic(auto, using(crate::proofs::Texts::accepts_released))]
pub fn a_reader_accepts_what_is_released()
    ensures { (c : Coding) → TellsProducers c → (offset : ℕ) (text : List ℕ) →
        committed (text_of c offset text) ≡ all_coded c (sequencer.released_in (sequencer.committed offset text)) }
{}

/// A sequencer that is made from the checkpoint of a text, and is fed this text and what follows from the offset on
/// that it wants, releases what the reader accepts behind that text.
#[tactic(auto, using(crate::proofs::Texts::resumed_accepts))]
pub fn a_resumed_reader_accepts_the_rest()
    ensures { (c : Coding) → TellsProducers c → (offset : ℕ) (text more : List ℕ) →
        let resuming = resumed (point_of (fed (started offset) text)) in
        committed (text_of c offset text) ++ all_coded c (fed resuming (drop (at resuming - offset) (text ++ more))).released
        ≡ committed (text_of c offset (text ++ more)) }
{}
