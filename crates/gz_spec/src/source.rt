//! The sources of a shard as JSON.
ghost use Rattle.std.specs.Prelude.{◌≡◌, ◌++◌, ◌∷◌, [], IfOk};
ghost use Rattle.serde_json.specs.View.{view, items_view};
ghost use Rattle.gz_fields.specs.Outcomes.{Gives};
ghost use Rattle.gz_fields.specs.Lists.{count, each};
ghost use Rattle.gz_spec.specs.Shards.{next_source, sources_at, journal_named, not_empty};

use gz_fields::{
    FieldError, Range, path_below, path_of_item, read_items, read_journal_name, read_number_or,
    refuse_long, refuse_unknown, use_name,
};
use gz_label::{Blob, Name, NoMemory};
use indexmap::IndexSet;
use serde_json::Value;
use std::alloc::Global;
use std::marker::Model;

/// The most sources of a shard.
const MAX_SOURCES: usize = 16;

/// The offsets from which a source may be read.
const MIN_OFFSET: Range = Range {
    least: 0,
    most: 4_611_686_018_427_387_904,
};

/// A journal that a shard reads, and the offset in bytes from which it does, at most 2^62. Whatever is of this type
/// is valid.
#[derive(Debug, Drop)]
pub struct SourceSpec {
    pub journal: Name,
    pub min_offset: u64,
}

impl Model for SourceSpec {
    ghost use Rattle.std.specs.Prelude.{IsTrue};
    ghost use Rattle.gz_spec.specs.Records.{SourceSpec as Seen};
    ghost use Rattle.gz_spec.specs.Valid.{is_source};

    ghost Value = { Seen };

    ghost view = { λ a. record { journal = a.journal; min_offset = a.min_offset } };

    ghost invariant = { λ a. IsTrue (is_source (record { journal = a.journal; min_offset = a.min_offset })) };
}

impl SourceSpec {
    /// An equal value.
    pub fn copy(&self) -> Result<SourceSpec, NoMemory>
        ensures { IfOk result (λ source. source ≡ self.now) }
    {
        Ok(SourceSpec {
            journal: self.journal.copy()?,
            min_offset: self.min_offset,
        })
    }
}

/// Sources, which a contract sees as their list.
#[derive(Debug, Drop)]
pub struct Sources {
    sources: Vec<SourceSpec>,
}

impl Model for Sources {
    ghost use Rattle.std.specs.Prelude.{List};
    ghost use Rattle.gz_spec.specs.Records.{SourceSpec};

    ghost Value = { List SourceSpec };

    ghost view = { λ a. a.sources.items };
}

fn copy_sources(alloc: Global, sources: &[SourceSpec]) -> Result<Vec<SourceSpec>, NoMemory>
    ensures { IfOk result (λ copied. copied.items ≡ sources.now) }
{
    let mut copied = Vec::new(alloc);
    for source in sources {
        let one = source.copy()?;
        copied.push(one)?;
    }
    Ok(copied)
}

impl Sources {
    /// The same sources. It takes no memory.
    pub fn of(sources: Vec<SourceSpec>) -> Sources
        ensures { result ≡ sources.items }
    {
        Sources { sources }
    }

    /// Gives the sources back as a vector. It takes no memory.
    pub fn into_vec(self) -> Vec<SourceSpec>
        ensures { result.items ≡ self }
    {
        self.sources
    }

    /// The sources. It takes no memory.
    pub fn as_slice(&self) -> &[SourceSpec]
        ensures { result.now ≡ self.now }
    {
        self.sources.as_slice()
    }

    /// An equal value.
    pub fn copy(&self) -> Result<Sources, NoMemory>
        ensures { IfOk result (λ sources. sources ≡ self.now) }
    {
        let sources = copy_sources(*self.sources.allocator(), self.sources.as_slice())?;
        Ok(Sources { sources })
    }
}

/// The source in a list, behind sources of the used journals, to which its journal is added.
#[tactic(auto, unfolding(crate::specs::Shards::next_source))]
fn read_next_source(
    alloc: Global,
    path: &Blob,
    used: &mut IndexSet<Name>,
    value: &Value,
) -> Result<SourceSpec, FieldError>
    ensures gives { Gives (λ s. s) result (next_source path.now used.old.keys (view value.now)) }
    ensures noted { IfOk result (λ s. used.new.keys ≡ used.old.keys ++ s.journal ∷ []) }
{
    refuse_unknown(alloc, path, value, &["journal", "min_offset"])?;
    let journal = read_journal_name(alloc, path, value, "journal")?;
    let place = path_below(alloc, path, "journal")?;
    use_name(used, place, &journal)?;
    let min_offset = read_number_or(alloc, path, value, "min_offset", 0, MIN_OFFSET)?;
    Ok(SourceSpec {
        journal,
        min_offset,
    })
}

fn read_each_source(alloc: Global, path: &Blob, values: &[Value]) -> Result<Sources, FieldError>
    ensures { Gives
        (λ s. s) result (each next_source journal_named path.now 0 [] (items_view values.now)) }
{
    let mut used = IndexSet::new(alloc);
    let mut sources = Vec::new(alloc);
    for (i, value) in values.iter().enumerate() {
        let place = path_of_item(alloc, path, i)?;
        let source = read_next_source(alloc, &place, &mut used, value)?;
        sources.push(source)?;
    }
    Ok(Sources { sources })
}

#[tactic(auto, using(gz_fields::proofs::Counts::count_view))]
fn refuse_empty(path: &Blob, values: &[Value]) -> Result<(), FieldError>
    ensures { Gives (λ u. u) result (not_empty path.now (count (items_view values.now))) }
{
    if values.len() == 0 {
        return Err(FieldError::BadField { path: path.copy()? });
    }
    Ok(())
}

/// The sources of the object: 1 to 16, no two of one journal.
#[tactic(auto, unfolding(crate::specs::Shards::sources_at))]
pub fn read_sources(alloc: Global, path: &Blob, value: &Value) -> Result<Sources, FieldError>
    ensures { Gives (λ s. s) result (sources_at path.now (view value.now)) }
{
    let values = read_items(alloc, path, value, "sources")?;
    let place = path_below(alloc, path, "sources")?;
    refuse_empty(&place, values)?;
    refuse_long(&place, values, MAX_SOURCES)?;
    let sources = read_each_source(alloc, &place, values)?;
    Ok(sources)
}
