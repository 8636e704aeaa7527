//! Specifications with more of them.
ghost use Rattle.std.specs.Prelude.{◌≡◌, ◌++◌, IfOk, map, filter, codes, length};
ghost use Rattle.gz_label.specs.Labels.{labels_named};
ghost use Rattle.gz_fields.specs.Outcomes.{Gives};
ghost use Rattle.gz_fields.specs.Lists.{no_more_than};
ghost use Rattle.gz_spec.specs.Specs.{name_of_journal, id_of_shard};
ghost use Rattle.gz_links.specs.Joins.{named_in, replaced, is_new, joined, same_content, keeps_content, contents_kept};

use crate::by_name::{JournalsByName, ShardsById};
use gz_fields::{FieldError, path_below, path_of_item};
use gz_label::{Blob, LabelSet, NoMemory};
use gz_spec::{JournalSpec, ShardSpec};
use std::alloc::Global;

fn same_content(labels: &LabelSet, others: &LabelSet) -> bool
    ensures { result ≡ same_content labels.now others.now }
{
    labels.labels_named(b"content-type") == others.labels_named(b"content-type")
}

/// Whether the journal holds what the one of its name among the old ones does, if there is one.
fn keeps_content(old: &JournalsByName, journal: &JournalSpec) -> bool
    ensures { result
        ≡ keeps_content (named_in name_of_journal journal.now.name old.now) journal.now }
{
    match old.named(&journal.name) {
        None => true,
        Some(replaced) => same_content(&replaced.labels, &journal.labels),
    }
}

/// Refuses the first journal that changes what the one of its name among the old ones holds.
pub fn refuse_changed(
    alloc: Global,
    old: &JournalsByName,
    more: &[JournalSpec],
) -> Result<(), FieldError>
    ensures { Gives (λ u. u) result (contents_kept old.now 0 more.now) }
{
    let list = Blob::of(alloc, b"journals")?;
    for (i, journal) in more.iter().enumerate() {
        if !keeps_content(old, journal) {
            let place = path_of_item(alloc, &list, i)?;
            return Err(FieldError::BadField {
                path: path_below(alloc, &place, "labels")?,
            });
        }
    }
    Ok(())
}

/// The old journals, each replaced by the one of its name among more.
fn replaced_journals(
    alloc: Global,
    old: &[JournalSpec],
    more: &JournalsByName,
) -> Result<Vec<JournalSpec>, NoMemory>
    ensures { IfOk result (λ js. js.items ≡ map (replaced name_of_journal more.now) old.now) }
{
    let mut journals = Vec::new(alloc);
    for journal in old {
        let chosen = more.named(&journal.name).unwrap_or(journal);
        let copied = chosen.copy()?;
        journals.push(copied)?;
    }
    Ok(journals)
}

/// The journals of both.
pub fn joined_journals(
    alloc: Global,
    old: &JournalsByName,
    more: &JournalsByName,
) -> Result<Vec<JournalSpec>, NoMemory>
    ensures { IfOk result (λ js. js.items ≡ joined name_of_journal old.now more.now) }
{
    let mut journals = replaced_journals(alloc, old.as_slice(), more)?;
    for journal in more.as_slice() {
        if old.named(&journal.name).is_none() {
            let copied = journal.copy()?;
            journals.push(copied)?;
        }
    }
    Ok(journals)
}

/// The old shards, each replaced by the one of its id among more.
fn replaced_shards(
    alloc: Global,
    old: &[ShardSpec],
    more: &ShardsById,
) -> Result<Vec<ShardSpec>, NoMemory>
    ensures { IfOk result (λ ss. ss.items ≡ map (replaced id_of_shard more.now) old.now) }
{
    let mut shards = Vec::new(alloc);
    for shard in old {
        let chosen = more.named(&shard.id).unwrap_or(shard);
        let copied = chosen.copy()?;
        shards.push(copied)?;
    }
    Ok(shards)
}

/// The shards of both.
pub fn joined_shards(
    alloc: Global,
    old: &ShardsById,
    more: &ShardsById,
) -> Result<Vec<ShardSpec>, NoMemory>
    ensures { IfOk result (λ ss. ss.items ≡ joined id_of_shard old.now more.now) }
{
    let mut shards = replaced_shards(alloc, old.as_slice(), more)?;
    for shard in more.as_slice() {
        if old.named(&shard.id).is_none() {
            let copied = shard.copy()?;
            shards.push(copied)?;
        }
    }
    Ok(shards)
}

/// Refuses a list of more items than this.
pub fn refuse_more(alloc: Global, list: &str, n: usize, most: usize) -> Result<(), FieldError>
    ensures { Gives (λ u. u) result (no_more_than most list.now n) }
{
    if n > most {
        return Err(FieldError::BadNumber {
            path: Blob::of(alloc, list.as_bytes())?,
        });
    }
    Ok(())
}
