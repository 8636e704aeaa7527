//! The journals that shards name.
ghost use Rattle.std.specs.Prelude.{◌≡◌, IfOk, codes};
ghost use Rattle.std.specs.List.{list_all};
ghost use Rattle.gz_label.specs.Labels.{values_of};
ghost use Rattle.gz_links.specs.Outcomes.{Gives};
ghost use Rattle.gz_links.specs.Links.{framing_at, is_lines, is_log, is_readable, sources_linked, log_name, log_linked, outputs_linked, shard_linked, all_linked};

use crate::SpecError;
use crate::by_name::JournalsByName;
use gz_fields::{path_below, path_of_item};
use gz_label::{Blob, Label, Name, NoMemory};
use gz_spec::{Framing, JournalSpec, ShardSpec, SourceSpec};
use std::alloc::Global;

/// What the journal of this name holds, if there is one. Time goes with the number of journals.
pub fn framing_at(journals: &[JournalSpec], name: &[u8]) -> Option<Framing>
    ensures { result ≡ framing_at journals.now name.now }
{
    for journal in journals {
        if journal.name.as_slice() == name {
            return Some(journal.framing());
        }
    }
    None
}

fn is_readable(framing: Option<Framing>) -> bool
    ensures { result ≡ is_readable framing }
{
    match framing {
        None | Some(Framing::RecoveryLog) => false,
        Some(Framing::Lines | Framing::FixedFrames | Framing::Bytes) => true,
    }
}

fn is_lines(framing: Option<Framing>) -> bool
    ensures { result ≡ is_lines framing }
{
    match framing {
        Some(Framing::Lines) => true,
        None | Some(Framing::FixedFrames | Framing::RecoveryLog | Framing::Bytes) => false,
    }
}

fn is_log(framing: Option<Framing>) -> bool
    ensures { result ≡ is_log framing }
{
    match framing {
        Some(Framing::RecoveryLog) => true,
        None | Some(Framing::Lines | Framing::FixedFrames | Framing::Bytes) => false,
    }
}

fn refuse_sources(
    alloc: Global,
    journals: &JournalsByName,
    path: &Blob,
    sources: &[SourceSpec],
) -> Result<(), SpecError>
    ensures { Gives (λ u. u) result (sources_linked journals.now path.now 0 sources.now) }
{
    for (k, source) in sources.iter().enumerate() {
        if !is_readable(journals.framing_at(&source.journal)) {
            return Err(SpecError::NoJournal {
                path: path_of_item(alloc, path, k)?,
            });
        }
    }
    Ok(())
}

fn log_name(alloc: Global, shard: &ShardSpec) -> Result<Name, NoMemory>
    ensures { IfOk result (λ name. name ≡ log_name shard.now) }
{
    let mut text = String::from_str(alloc, shard.recovery_log_prefix.as_str())?;
    text.push_str("/")?;
    text.push_str(shard.id.as_str())?;
    let name = Name::of(alloc, text.as_str())?;
    Ok(name)
}

fn refuse_log(
    alloc: Global,
    journals: &JournalsByName,
    path: &Blob,
    shard: &ShardSpec,
) -> Result<(), SpecError>
    ensures { Gives (λ u. u) result (log_linked journals.now path.now shard.now) }
{
    let name = log_name(alloc, shard)?;
    if !is_log(journals.framing_at(&name)) {
        return Err(SpecError::NoJournal {
            path: path_below(alloc, path, "recovery_log_prefix")?,
        });
    }
    Ok(())
}

/// Whether each value of the labels `output` names a journal of lines.
fn are_lines(journals: &JournalsByName, labels: &[Label]) -> bool
    ensures { result ≡ list_all
        (λ o. is_lines (framing_at journals.now o)) (values_of (codes "output") labels.now) }
{
    for label in labels {
        if label.name.as_slice() == b"output".as_slice()
            && !is_lines(journals.framing_at(&label.value))
        {
            return false;
        }
    }
    true
}

fn refuse_outputs(
    alloc: Global,
    journals: &JournalsByName,
    path: &Blob,
    shard: &ShardSpec,
) -> Result<(), SpecError>
    ensures { Gives (λ u. u) result (outputs_linked journals.now path.now shard.now) }
{
    if !are_lines(journals, shard.labels.as_slice()) {
        return Err(SpecError::NoJournal {
            path: path_below(alloc, path, "labels")?,
        });
    }
    Ok(())
}

#[tactic(auto, unfolding(crate::specs::Links::shard_linked))]
fn refuse_shard(
    alloc: Global,
    journals: &JournalsByName,
    path: &Blob,
    shard: &ShardSpec,
) -> Result<(), SpecError>
    ensures { Gives (λ u. u) result (shard_linked journals.now path.now shard.now) }
{
    let sources = path_below(alloc, path, "sources")?;
    refuse_sources(alloc, journals, &sources, shard.sources.as_slice())?;
    refuse_log(alloc, journals, path, shard)?;
    refuse_outputs(alloc, journals, path, shard)?;
    Ok(())
}

/// Refuses the first shard that names a journal that isn't there, or one with content of another type.
pub fn refuse_unlinked(
    alloc: Global,
    journals: &JournalsByName,
    shards: &[ShardSpec],
) -> Result<(), SpecError>
    ensures { Gives (λ u. u) result (all_linked journals.now 0 shards.now) }
{
    let list = Blob::of(alloc, b"shards")?;
    for (i, shard) in shards.iter().enumerate() {
        let path = path_of_item(alloc, &list, i)?;
        refuse_shard(alloc, journals, &path, shard)?;
    }
    Ok(())
}
