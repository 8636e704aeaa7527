//! The journals and shards of a cluster, by its specifications.
ghost use Rattle.std.specs.Prelude.{◌≡◌, ◌++◌, ◌≤◌, length, map, drop, codes, IfOk, OnOk, IsTrue};
ghost use Rattle.std.specs.List.{list_all};
ghost use Rattle.gz_label.specs.Labels.{values_of};
ghost use Rattle.gz_links.specs.Links.{are_linked};
ghost use Rattle.gz_spec.specs.Valid.{is_source, is_shard};
ghost use Rattle.gz_plain.specs.Cluster.{AreSmallSources, AreSmall, source_named, definition_of as definition_seen, definitions_of as definitions_seen};
ghost use Rattle.gz_plain.specs.Places.{names_of};
ghost use Rattle.gz_plain.specs.Runs.{changed};
ghost use Rattle.gz_scenario.specs.Lawful.{is_start};
ghost use Rattle.gz_world.specs.Starts.{kind_of, source_of, definition_of, definitions_of, names_of_journals, in_id_order, cluster_start};

use gz_app::AppKind;
use gz_label::{Label, Name, NoMemory};
use gz_plain::{Cluster, Definition, Source};
use gz_spec::{JournalSpec, ShardSpec, SourceSpec, Specs};
use std::alloc::Global;
use std::collections::BTreeMap;
use std::marker::Model;

/// The shards in the order of their ids. Contracts see pairs of an id and a shard.
#[derive(Drop)]
struct ShardTable {
    entries: BTreeMap<Name, ShardSpec>,
}

impl Model for ShardTable {
    ghost use Rattle.std.specs.Prelude.{List, ℕ};
    ghost use Rattle.gz_spec.specs.Records.{ShardSpec};

    ghost Value = { List (List ℕ × ShardSpec) };

    ghost view = { λ a. a.entries.entries };
}

/// The shards in the order of their ids.
fn in_id_order(alloc: Global, shards: &[ShardSpec]) -> Result<ShardTable, NoMemory>
    ensures { IfOk result (λ table. table ≡ in_id_order shards.now) }
{
    let mut entries = BTreeMap::new(alloc);
    for shard in shards {
        entries.insert(shard.id.copy()?, shard.copy()?)?;
    }
    Ok(ShardTable { entries })
}

fn kind_of(app: Option<AppKind>) -> AppKind
    ensures { result ≡ kind_of app }
{
    match app {
        None => AppKind::Count,
        Some(app) => app,
    }
}

#[tactic(auto, using(crate::proofs::Begun::small_offset, crate::proofs::Begun::small_sources_more, crate::proofs::Begun::named_more))]
fn sources_of(alloc: Global, sources: &[SourceSpec]) -> Result<Vec<Source>, NoMemory>
    requires { IsTrue (list_all is_source sources.now) }
    ensures value { IfOk result
        (λ copied. map source_named copied.items ≡ map source_of sources.now) }
    ensures small { IfOk result (λ copied. AreSmallSources copied.items) }
{
    let mut copied = Vec::new(alloc);
    for source in sources {
        let journal = source.journal.copy()?;
        let from = source.min_offset;
        copied.push(Source { journal, from })?;
    }
    Ok(copied)
}

fn values(alloc: Global, labels: &[Label]) -> Result<Vec<Name>, NoMemory>
    ensures { IfOk result (λ names. names.items ≡ map (λ l. l.value) labels.now) }
{
    let mut names = Vec::new(alloc);
    for label in labels {
        names.push(label.value.copy()?)?;
    }
    Ok(names)
}

fn definition(alloc: Global, shard: &ShardSpec) -> Result<Definition, NoMemory>
    requires { IsTrue (is_shard shard.now) }
    ensures value { IfOk result (λ d. definition_seen d ≡ definition_of shard.now) }
    ensures small { IfOk result (λ d. AreSmallSources d.sources.items) }
{
    Ok(Definition {
        id: shard.id.copy()?,
        log: shard.recovery_log_prefix.copy()?,
        sources: sources_of(alloc, shard.sources.as_slice())?,
        outputs: values(alloc, shard.labels.labels_named(b"output"))?,
        app: kind_of(shard.app()),
        is_disabled: shard.disable,
    })
}

/// What the shards are said to be, in the order of their ids.
#[tactic(auto, using(crate::proofs::Order::are_shards_in_order, crate::proofs::Begun::small_more, crate::proofs::Begun::defined_more))]
fn definitions(alloc: Global, shards: &[ShardSpec]) -> Result<Vec<Definition>, NoMemory>
    requires { IsTrue (list_all is_shard shards.now) }
    ensures value { IfOk result (λ ds. definitions_seen ds.items ≡ definitions_of shards.now) }
    ensures small { IfOk result (λ ds. AreSmall ds.items) }
{
    let table = in_id_order(alloc, shards)?;
    let mut definitions = Vec::new(alloc);
    for (_, shard) in &table.entries {
        let one = definition(alloc, shard)?;
        definitions.push(one)?;
    }
    Ok(definitions)
}

fn names(alloc: Global, journals: &[JournalSpec]) -> Result<Vec<Name>, NoMemory>
    ensures { IfOk result (λ names. names.items ≡ names_of_journals journals.now) }
{
    let mut names = Vec::new(alloc);
    for journal in journals {
        names.push(journal.name.copy()?)?;
    }
    Ok(names)
}

/// How many journals the specifications have. It takes no memory.
pub fn count_journals(specs: &Specs) -> usize
    ensures { result ≡ length specs.now.journals }
{
    specs.journals.as_slice().len()
}

/// Makes the journals and shards of a cluster those of specifications. The first of their journals, so many, are
/// there, and the others come behind them, empty.
pub fn change(
    alloc: Global,
    cluster: &mut Cluster,
    specs: &Specs,
    there: usize,
) -> Result<(), NoMemory>
    requires linked { IsTrue (are_linked specs.now.journals specs.now.shards) }
    requires there { there ≤ length specs.now.journals }
    requires names { names_of cluster.old.journals
        ++ names_of_journals (drop there specs.now.journals)
        ≡ names_of_journals specs.now.journals }
    requires few { length cluster.old.shards ≤ 256 }
    ensures { OnOk result
        (cluster.new
        ≡ changed (names_of_journals (drop there specs.now.journals))
        (definitions_of specs.now.shards) cluster.old) }
{
    let names = names(alloc, &specs.journals.as_slice()[there..])?;
    let definitions = definitions(alloc, specs.shards.as_slice())?;
    cluster.change(alloc, names, definitions)
}

/// Empty journals, and shards that have read nothing, by specifications that were read.
pub fn start(alloc: Global, specs: &Specs) -> Result<Cluster, NoMemory>
    requires { IsTrue (is_start specs.now) }
    ensures { IfOk result (λ cluster. cluster ≡ cluster_start specs.now) }
{
    let mut cluster = Cluster::new(alloc);
    change(alloc, &mut cluster, specs, 0)?;
    Ok(cluster)
}
