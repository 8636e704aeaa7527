//! The shards of new definitions.
ghost use Rattle.std.specs.Prelude.{◌≡◌, ◌+◌, ◌<◌, ◌≤◌, ◌^◌, ◌∷◌, List, length, map, IfOk, OnOk};
ghost use Rattle.gz_plain.specs.Cluster.{AreLinked, AreSmall, AreSmallSources, behind_lead, definition_of, definitions_of, lead_of, source_named};
ghost use Rattle.gz_plain.specs.Definitions.{Definition as Seen, continued, keeps_definition as keeps, redefined, same_app as same_kind, same_names as are_same_names, same_sources as are_same_sources};
ghost use Rattle.gz_plain.specs.Running.{AllKept, IsKept, journals_of};
ghost use Rattle.gz_plain.specs.Runs.{ArePresent};
ghost use Rattle.gz_plain.specs.Seen.{name_of, shard_of, shards_of, source_of};

use crate::begin::begin_shard;
use crate::cluster::{Definition, Source};
use crate::journals::Journals;
use crate::reader::Reader;
use crate::redefine::with_definition;
use crate::shard::Shard;
use crate::writer::Writer;
use gz_app::AppKind;
use gz_label::{Name, NoMemory};
use std::alloc::Global;
use std::collections::VecDeque;

/// Whether the readers are of these sources.
#[tactic(auto, using(crate::proofs::Remarking::unlike_sources))]
fn same_sources(sources: &[Source], readers: &[Reader]) -> bool
    ensures { result ≡ are_same_sources (map source_named sources.now) (map source_of readers.now) }
{
    if sources.len() != readers.len() {
        return false;
    }
    for (i, source) in sources.iter().enumerate() {
        if source.journal.as_slice() != readers[i].journal.as_slice()
            || source.from != readers[i].from
        {
            return false;
        }
    }
    true
}

/// Whether the writers are to these journals.
#[tactic(auto, using(crate::proofs::Remarking::unlike_names))]
fn same_names(names: &[Name], writers: &[Writer]) -> bool
    ensures { result ≡ are_same_names names.now (map name_of writers.now) }
{
    if names.len() != writers.len() {
        return false;
    }
    for (i, name) in names.iter().enumerate() {
        if name.as_slice() != writers[i].journal.as_slice() {
            return false;
        }
    }
    true
}

/// Whether the applications are the same.
fn same_app(a: AppKind, b: AppKind) -> bool
    ensures { result ≡ same_kind a b }
{
    a == b
}

/// Whether the shard keeps its definition: whether it is disabled may change, and nothing else.
fn keeps_definition(definition: &Definition, shard: &Shard) -> bool
    ensures { result ≡ keeps (definition_of definition.now) (shard_of shard.now) }
{
    same_sources(definition.sources.as_slice(), shard.readers.as_slice())
        && same_names(definition.outputs.as_slice(), shard.writers.as_slice())
        && same_app(definition.app, shard.app)
        && definition.log.as_slice() == shard.log.as_slice()
}

/// The shard from now on.
fn continue_shard(
    alloc: Global,
    definition: Definition,
    shard: Shard,
    journals: &Journals,
) -> Result<Shard, NoMemory>
    requires offsets { AreSmallSources definition.sources.items }
    requires sources { ArePresent
        (journals_of (map source_named definition.sources.items)) journals.now }
    requires outputs { ArePresent definition.outputs.items journals.now }
    requires kept { IsKept journals.now shard }
    ensures shard { IfOk result
        (λ new. shard_of new ≡ continued journals.now (definition_of definition) (shard_of shard)) }
    ensures kept { IfOk result (λ new. IsKept journals.now new) }
{
    if keeps_definition(&definition, &shard) {
        let is_disabled = definition.is_disabled;
        return Ok(Shard {
            is_disabled,
            ..shard
        });
    }
    with_definition(alloc, definition, shard, journals)
}

/// Takes the first of the shards where it has this id.
fn take_lead(shards: &mut VecDeque<Shard>, id: &[u8]) -> Option<Shard>
    ensures lead { result ≡ lead_of id.now shards.old.items }
    ensures rest { shards.new.items ≡ behind_lead id.now shards.old.items }
{
    match shards.front() {
        Some(shard) if shard.id.as_slice() == id => shards.pop_front(),
        _ => None,
    }
}

/// The shard of the next definition: the first of the shards, where it has the definition's id, and else one that begins
/// with the number, and counts it on.
fn next_shard(
    alloc: Global,
    definition: Definition,
    shards: &mut VecDeque<Shard>,
    number: &mut u64,
    journals: &Journals,
) -> Result<Shard, NoMemory>
    requires few { number.old < 2 ^ 40 }
    requires offsets { AreSmallSources definition.sources.items }
    requires sources { ArePresent
        (journals_of (map source_named definition.sources.items)) journals.now }
    requires outputs { ArePresent definition.outputs.items journals.now }
    requires kept { AllKept journals.now shards.old.items }
    ensures shard { IfOk result (λ shard. (ds : List Seen) →
        shard_of shard ∷ redefined journals.now number.new ds (shards_of shards.new.items)
        ≡ redefined journals.now number.old (definition_of definition ∷ ds) (shards_of shards.old.items)) }
    ensures kept { IfOk result (λ shard. IsKept journals.now shard) }
    ensures others { OnOk result (AllKept journals.now shards.new.items) }
    ensures number { OnOk result (number.new ≤ number.old + 1) }
{
    if let Some(shard) = take_lead(shards, definition.id.as_slice()) {
        let shard = continue_shard(alloc, definition, shard, journals)?;
        return Ok(shard);
    }
    let shard = begin_shard(alloc, *number, definition, journals)?;
    *number += 1;
    Ok(shard)
}

/// The shards of these definitions. A definition of the next shard's id is that shard's from now on, and any other one
/// begins a shard, which gets the next number.
pub fn redefine_all(
    alloc: Global,
    definitions: Vec<Definition>,
    shards: Vec<Shard>,
    journals: &Journals,
) -> Result<Vec<Shard>, NoMemory>
    requires few { length shards.items + length definitions.items < 2 ^ 40 }
    requires offsets { AreSmall definitions.items }
    requires linked { AreLinked journals.now (definitions_of definitions.items) }
    requires kept { AllKept journals.now shards.items }
    ensures shards { IfOk result (λ after. shards_of after.items
        ≡ redefined journals.now (1 + length shards.items) (definitions_of definitions.items) (shards_of shards.items)) }
    ensures kept { IfOk result (λ after. AllKept journals.now after.items) }
{
    let mut number = 1 + shards.len() as u64;
    let mut earlier = VecDeque::from_vec(shards);
    let mut after = Vec::new(alloc);
    for definition in definitions {
        let shard = next_shard(alloc, definition, &mut earlier, &mut number, journals)?;
        after.push(shard)?;
    }
    Ok(after)
}
