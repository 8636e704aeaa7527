//! A shard of another definition.
ghost use Rattle.std.specs.Prelude.{◌≡◌, ◌+◌, ◌-◌, ◌<◌, ◌≤◌, ◌^◌, drop, length, map, replicate, take, IfOk};
ghost use Rattle.gz_sequencer.specs.Machine.{fed, started};
ghost use Rattle.gz_plain.specs.Cluster.{AreSmallSources, definition_of, passed, reaches as reached_at, reader_upto, readers_upto, source_named};
ghost use Rattle.gz_plain.specs.Definitions.{with_definition as redefined};
ghost use Rattle.gz_promise.specs.Journals.{text_at};
ghost use Rattle.gz_promise.specs.Parts.{part};
ghost use Rattle.gz_plain.specs.Running.{IsKept, journals_of};
ghost use Rattle.gz_plain.specs.Runs.{ArePresent};
ghost use Rattle.gz_plain.specs.Seen.{shard_of};
ghost use Rattle.gz_promise.specs.Sources.{committed, end_of as end_at};

use crate::begin::begin_writers;
use crate::cluster::{Definition, Source};
use crate::feed::feed;
use crate::journals::Journals;
use crate::past::{Mark, Past};
use crate::reader::{Reader, Readers, drain};
use crate::remark::{mark_or, marks_of};
use crate::shard::{Offsets, Shard, sum};
use gz_frame::Messages;
use gz_label::NoMemory;
use gz_sequencer::Sequencer;
use std::alloc::Global;

/// The end of a source; where its journal ends before the source's offset, that offset.
fn end_of(source: &Source, journals: &Journals) -> u64
    requires { source.now.from ≤ 2 ^ 62 }
    ensures { result ≡ end_at journals.now (source_named source.now) }
{
    let place = journals.place_of(source.journal.as_slice());
    let end = journals.end_at(place);
    let behind = end.saturating_sub(source.from);
    source.from + behind
}

/// The offset up to which a source is read: what the marks say, but no further than to its end, and the source's own
/// offset where no commits were made.
fn reaches(source: &Source, has_commits: bool, marks: &[Mark], journals: &Journals) -> u64
    requires { source.now.from ≤ 2 ^ 62 }
    ensures { result ≡ reached_at journals.now has_commits marks.now (source_named source.now) }
{
    if !has_commits {
        return source.from;
    }
    let mark = mark_or(source.from, source.journal.as_slice(), marks);
    mark.min(end_of(source, journals))
}

/// A source that was read up to an offset.
#[derive(Drop)]
struct Reached {
    /// The source, with the checkpoint there.
    reader: Reader,
    /// How many messages the bytes up to there release.
    messages: usize,
}

/// A sequencer that was fed the text of the journal at this place from one offset up to another one.
fn read_upto(
    alloc: Global,
    journals: &Journals,
    place: usize,
    from: u64,
    to: u64,
) -> Result<Sequencer, NoMemory>
    requires small { from ≤ 2 ^ 62 }
    requires within { to ≤ from + length (drop from (text_at place journals.now)) }
    ensures { IfOk result
        (λ sequencer.
        sequencer ≡ fed (started from)
        (take (to - from) (drop from (text_at place journals.now)))) }
{
    let mut sequencer = Sequencer::new(alloc, from);
    if to <= from {
        return Ok(sequencer);
    }
    feed(journals, place, &mut sequencer, to)?;
    Ok(sequencer)
}

/// Reads a source from its offset up to another one.
fn reach(alloc: Global, source: Source, to: u64, journals: &Journals) -> Result<Reached, NoMemory>
    requires small { source.from ≤ 2 ^ 62 }
    requires within { to ≤ end_at journals.now (source_named source) }
    ensures reader { IfOk result (λ reached. reached.reader ≡ reader_upto journals.now to source) }
    ensures messages { IfOk result
        (λ reached. reached.messages
        ≡ length (part source.from to (committed journals.now (source_named source)))) }
{
    let place = journals.place_of(source.journal.as_slice());
    let mut sequencer = read_upto(alloc, journals, place, source.from, to)?;
    let mut messages = Messages::new(alloc);
    drain(&mut sequencer, &mut messages)?;
    let point = sequencer.checkpoint()?;
    Ok(Reached {
        reader: Reader {
            journal: source.journal,
            place,
            from: source.from,
            read: to.saturating_sub(source.from),
            point,
            next: None,
        },
        messages: messages.as_slice().len(),
    })
}

/// Sources that were read on.
#[derive(Drop)]
struct AllReached {
    readers: Vec<Reader>,
    /// The offset up to which each was read.
    offsets: Vec<u64>,
    /// How many messages the bytes up to there release.
    messages: u64,
}

/// Reads each source up to where the marks say.
fn reach_all(
    alloc: Global,
    sources: Vec<Source>,
    has_commits: bool,
    marks: &[Mark],
    journals: &Journals,
) -> Result<AllReached, NoMemory>
    requires { AreSmallSources sources.items }
    ensures readers { IfOk result
        (λ all. all.readers.items ≡ readers_upto journals.now has_commits marks.now sources.items) }
    ensures offsets { IfOk result
        (λ all. all.offsets.items
        ≡ map (reached_at journals.now has_commits marks.now) (map source_named sources.items)) }
    ensures messages { IfOk result
        (λ all. all.messages
        ≡ passed journals.now has_commits marks.now (map source_named sources.items)) }
{
    let mut all = AllReached {
        readers: Vec::new(alloc),
        offsets: Vec::new(alloc),
        messages: 0,
    };
    for source in sources {
        let to = reaches(&source, has_commits, marks, journals);
        let reached = reach(alloc, source, to, journals)?;
        all.readers.push(reached.reader)?;
        all.offsets.push(to)?;
        all.messages = sum(all.messages, reached.messages)?;
    }
    Ok(all)
}

/// So many commits of these offsets.
fn repeat(alloc: Global, offsets: &[u64], count: usize) -> Result<Vec<Offsets>, NoMemory>
    ensures { IfOk result (λ commits. commits.items ≡ replicate count offsets.now) }
{
    let mut commits = Vec::new(alloc);
    for _i in 0..count {
        commits.push(Offsets::new(Vec::from_slice(alloc, offsets)?))?;
    }
    Ok(commits)
}

/// A shard of another definition. It keeps its producer, its clock and its state. Its commits so far count as commits of
/// the sources that it has now, up to where these were read.
pub fn with_definition(
    alloc: Global,
    definition: Definition,
    shard: Shard,
    journals: &Journals,
) -> Result<Shard, NoMemory>
    requires offsets { AreSmallSources definition.sources.items }
    requires sources { ArePresent
        (journals_of (map source_named definition.sources.items)) journals.now }
    requires outputs { ArePresent definition.outputs.items journals.now }
    requires kept { IsKept journals.now shard }
    ensures shard { IfOk result
        (λ new. shard_of new ≡ redefined journals.now (definition_of definition) (shard_of shard)) }
    ensures kept { IfOk result (λ new. IsKept journals.now new) }
{
    let count = shard.commits.len();
    let marks = marks_of(alloc, &shard)?;
    let all = reach_all(
        alloc,
        definition.sources,
        count != 0,
        marks.as_slice(),
        journals,
    )?;
    let writers = begin_writers(alloc, definition.outputs, journals)?;
    let commits = repeat(alloc, all.offsets.as_slice(), count)?;
    Ok(Shard {
        log: definition.log,
        readers: Readers::of(all.readers),
        writers,
        app: definition.app,
        is_disabled: definition.is_disabled,
        past: Some(Past::new(count, marks)),
        commits,
        messages: all.messages,
        ..shard
    })
}
