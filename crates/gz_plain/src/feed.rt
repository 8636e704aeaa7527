//! Texts of journals, which sequencers are fed.
ghost use Rattle.std.specs.Prelude.{◌≡◌, ◌≤◌, ◌-◌, length, take, drop, OnOk};
ghost use Rattle.gz_sequencer.specs.Machine.{at, fed};
ghost use Rattle.gz_promise.specs.Journals.{text_at, text_in};

use crate::journals::{Journal, Journals};
use gz_label::NoMemory;
use gz_sequencer::Sequencer;

/// The most bytes that are read of a journal at once.
const MAX_PIECE: u64 = 262_144;

/// Feeds the journal's text, piece by piece, from where the sequencer stands up to an offset. Where it is cut doesn't
/// matter.
pub fn feed_journal(journal: &Journal, sequencer: &mut Sequencer, to: u64) -> Result<(), NoMemory>
    requires start { at sequencer.old ≤ to }
    requires end { to ≤ length (text_in journal.now) }
    ensures { OnOk result
        (sequencer.new
        ≡ fed sequencer.old
        (take (to - at sequencer.old) (drop (at sequencer.old) (text_in journal.now)))) }
{
    let _end = journal.end();
    let mut at = sequencer.at();
    'pieces: while at < to {
        let piece = journal.read_at(at, (to - at).min(MAX_PIECE))?;
        sequencer.feed(at, piece.as_slice())?;
        at = sequencer.at();
    }
    Ok(())
}

/// Feeds the text at this place among the journals in the same way.
pub fn feed(
    journals: &Journals,
    place: usize,
    sequencer: &mut Sequencer,
    to: u64,
) -> Result<(), NoMemory>
    requires start { at sequencer.old ≤ to }
    requires end { to ≤ length (text_at place journals.now) }
    ensures { OnOk result
        (sequencer.new
        ≡ fed sequencer.old
        (take (to - at sequencer.old) (drop (at sequencer.old) (text_at place journals.now)))) }
{
    match journals.get(place) {
        Some(journal) => feed_journal(journal, sequencer, to),
        None => Ok(()),
    }
}
