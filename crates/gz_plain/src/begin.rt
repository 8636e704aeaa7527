//! What begins: empty journals, and shards that have read nothing.
ghost use Rattle.std.specs.Prelude.{◌≡◌, ◌+◌, ◌<◌, ◌^◌, length, map, IfOk, OnOk};
ghost use Rattle.gz_uuid.specs.Producer.{shard_octets};
ghost use Rattle.gz_plain.specs.Cluster.{AreSmallSources, definition_of, reader_at, source_named, writer_at};
ghost use Rattle.gz_plain.specs.Definitions.{fresh};
ghost use Rattle.gz_plain.specs.Running.{IsKept, journals_of};
ghost use Rattle.gz_plain.specs.Runs.{ArePresent, with_journals};
ghost use Rattle.gz_plain.specs.Seen.{shard_of};

use crate::cluster::{Definition, Source};
use crate::journals::Journals;
use crate::reader::{Reader, Readers};
use crate::shard::Shard;
use crate::writer::Writer;
use gz_app::State;
use gz_label::{Name, NoMemory};
use gz_uuid::{Producer, ProducerId};
use std::alloc::Global;

/// Empty journals of these names come behind the others.
pub fn add_journals(
    alloc: Global,
    names: Vec<Name>,
    journals: &mut Journals,
) -> Result<(), NoMemory>
    ensures { OnOk result (journals.new ≡ with_journals names.items journals.old) }
{
    for name in names {
        journals.add(alloc, name)?;
    }
    Ok(())
}

/// A reader for each source, which has read nothing.
fn begin_readers(
    alloc: Global,
    sources: Vec<Source>,
    journals: &Journals,
) -> Result<Readers, NoMemory>
    ensures { IfOk result (λ readers. readers ≡ map (reader_at journals.now) sources.items) }
{
    let mut readers = Vec::new(alloc);
    for source in sources {
        let place = journals.place_of(source.journal.as_slice());
        readers.push(Reader::new(alloc, source.journal, place, source.from))?;
    }
    Ok(Readers::of(readers))
}

/// A writer for each output.
pub fn begin_writers(
    alloc: Global,
    outputs: Vec<Name>,
    journals: &Journals,
) -> Result<Vec<Writer>, NoMemory>
    ensures { IfOk result (λ writers. writers.items ≡ map (writer_at journals.now) outputs.items) }
{
    let mut writers = Vec::new(alloc);
    for journal in outputs {
        let place = journals.place_of(journal.as_slice());
        writers.push(Writer { journal, place })?;
    }
    Ok(writers)
}

/// The producer 05 and a number.
fn producer_of(number: u64) -> Producer
    requires { number < 2 ^ 40 }
    ensures { result ≡ record { id = shard_octets number; last = 0 } }
{
    Producer::new(ProducerId::shard(number).unwrap())
}

/// A shard that has read nothing, whose lines carry the producer 05 and its number.
pub fn begin_shard(
    alloc: Global,
    number: u64,
    definition: Definition,
    journals: &Journals,
) -> Result<Shard, NoMemory>
    requires few { number < 2 ^ 40 }
    requires offsets { AreSmallSources definition.sources.items }
    requires sources { ArePresent
        (journals_of (map source_named definition.sources.items)) journals.now }
    requires outputs { ArePresent definition.outputs.items journals.now }
    ensures shard { IfOk result
        (λ shard. shard_of shard ≡ fresh number (definition_of definition)) }
    ensures kept { IfOk result (λ shard. IsKept journals.now shard) }
{
    let readers = begin_readers(alloc, definition.sources, journals)?;
    let writers = begin_writers(alloc, definition.outputs, journals)?;
    Ok(Shard {
        id: definition.id,
        log: definition.log,
        producer: producer_of(number),
        readers,
        writers,
        app: definition.app,
        is_disabled: definition.is_disabled,
        past: None,
        commits: Vec::new(alloc),
        messages: 0,
        store: State::new(alloc),
    })
}
