//! Shards whose outputs reach their own sources.
ghost use Rattle.std.specs.Prelude.{◌≡◌, ◌||◌, ◌++◌, IfOk, map, length, drop, codes};
ghost use Rattle.std.specs.List.{list_any};
ghost use Rattle.std.specs.Str.{bytes_eq};
ghost use Rattle.gz_label.specs.Labels.{values_of};
ghost use Rattle.gz_links.specs.Cycles.{feeds, bit, row, either, widened, widened_all, closed, fed_rows, flag, first_cycle, IsToldFirst, IsToldCycle};

use crate::levels::is_ordered;
use gz_label::{Label, Name, NoMemory};
use gz_spec::{ShardSpec, SourceSpec};
use std::alloc::Global;
use std::marker::Model;

/// For each shard whether it is reached, which a contract sees as a list of flags.
#[derive(Drop)]
struct Row {
    bits: Vec<bool>,
}

impl Model for Row {
    ghost use Rattle.std.specs.Prelude.{List, Bool};

    ghost Value = { List Bool };

    ghost view = { λ a. a.bits.items };
}

impl Row {
    fn as_slice(&self) -> &[bool]
        ensures { result.now ≡ self.now }
    {
        self.bits.as_slice()
    }
}

/// A row for each shard.
#[derive(Drop)]
struct Rows {
    rows: Vec<Row>,
}

impl Model for Rows {
    ghost use Rattle.std.specs.Prelude.{List, Bool};

    ghost Value = { List (List Bool) };

    ghost view = { λ a. a.rows.items };
}

impl Rows {
    fn as_slice(&self) -> &[Row]
        ensures { result.now ≡ self.now }
    {
        self.rows.as_slice()
    }
}

fn is_source(sources: &[SourceSpec], name: &Name) -> bool
    ensures { result ≡ list_any (λ u. bytes_eq u.journal name.now) sources.now }
{
    for source in sources {
        if source.journal.as_slice() == name.as_slice() {
            return true;
        }
    }
    false
}

/// Whether one of the labels' outputs is among the sources.
fn is_any_read(labels: &[Label], sources: &[SourceSpec]) -> bool
    ensures { result ≡ list_any
        (λ o. list_any (λ u. bytes_eq u.journal o) sources.now)
        (values_of (codes "output") labels.now) }
{
    for label in labels {
        if label.name.as_slice() == b"output".as_slice() && is_source(sources, &label.value) {
            return true;
        }
    }
    false
}

/// Whether an output of the first shard is a source of the second.
fn feeds(shard: &ShardSpec, other: &ShardSpec) -> bool
    ensures { result ≡ feeds shard.now other.now }
{
    is_any_read(shard.labels.as_slice(), other.sources.as_slice())
}

fn fed_row(alloc: Global, shard: &ShardSpec, shards: &[ShardSpec]) -> Result<Row, NoMemory>
    ensures { IfOk result (λ r. r ≡ map (λ t. feeds shard.now t) shards.now) }
{
    let mut bits = Vec::new(alloc);
    for other in shards {
        let fed = feeds(shard, other);
        bits.push(fed)?;
    }
    Ok(Row { bits })
}

fn fed_rows(alloc: Global, shards: &[ShardSpec]) -> Result<Rows, NoMemory>
    ensures { IfOk result (λ rs. rs ≡ fed_rows shards.now) }
{
    let mut rows = Vec::new(alloc);
    for shard in shards {
        let fed = fed_row(alloc, shard, shards)?;
        rows.push(fed)?;
    }
    Ok(Rows { rows })
}

#[tactic(auto, using(crate::proofs::Bits::bit_get, crate::proofs::Bits::bit_past))]
fn bit_at(row: &[bool], i: usize) -> bool
    ensures { result ≡ bit i row.now }
{
    if i < row.len() { row[i] } else { false }
}

fn or(flag: bool, other: bool) -> bool
    ensures { result ≡ (flag || other) }
{
    flag || other
}

fn copy_row(alloc: Global, row: &[bool]) -> Result<Row, NoMemory>
    ensures { IfOk result (λ r. r ≡ row.now) }
{
    Ok(Row {
        bits: Vec::from_slice(alloc, row)?,
    })
}

/// Puts the flags from the n-th on behind those that are there.
#[tactic(auto, using(crate::proofs::Bits::none_past))]
fn append_rest(bits: &mut Vec<bool>, flags: &[bool], n: usize) -> Result<(), NoMemory>
    ensures { IfOk result (λ _. bits.new.items ≡ bits.old.items ++ drop n flags.now) }
{
    if n < flags.len() {
        bits.extend_from_slice(&flags[n..])?;
    }
    Ok(())
}

/// The flags of either row.
#[tactic(auto, using(crate::proofs::Bits::either_past))]
fn either(alloc: Global, row: &[bool], other: &[bool]) -> Result<Row, NoMemory>
    ensures { IfOk result (λ r. r ≡ either row.now other.now) }
{
    let mut bits = Vec::new(alloc);
    for i in 0..row.len() {
        let flag = or(bit_at(row, i), bit_at(other, i));
        bits.push(flag)?;
    }
    append_rest(&mut bits, other, row.len())?;
    Ok(Row { bits })
}

fn widened(alloc: Global, m: usize, pivot: &[bool], row: &[bool]) -> Result<Row, NoMemory>
    ensures { IfOk result (λ r. r ≡ widened m pivot.now row.now) }
{
    if bit_at(row, m) {
        let wide = either(alloc, row, pivot)?;
        return Ok(wide);
    }
    let same = copy_row(alloc, row)?;
    Ok(same)
}

#[tactic(auto, using(crate::proofs::Bits::row_here, crate::proofs::Bits::row_past))]
fn row_at(rows: &[Row], i: usize) -> &[bool]
    ensures { result.now ≡ row i rows.now }
{
    if i < rows.len() {
        rows[i].as_slice()
    } else {
        &[]
    }
}

fn widened_all(alloc: Global, m: usize, rows: &[Row]) -> Result<Rows, NoMemory>
    ensures { IfOk result (λ rs. rs ≡ widened_all m rows.now) }
{
    let pivot = row_at(rows, m);
    let mut wider = Vec::new(alloc);
    for row in rows {
        let wide = widened(alloc, m, pivot, row.as_slice())?;
        wider.push(wide)?;
    }
    Ok(Rows { rows: wider })
}

/// What is reached through any of the shards.
fn closed(alloc: Global, fed: Rows, n: usize) -> Result<Rows, NoMemory>
    ensures { IfOk result (λ rs. rs ≡ closed n fed) }
{
    let mut rows = fed;
    for m in 0..n {
        rows = widened_all(alloc, m, rows.as_slice())?;
    }
    Ok(rows)
}

/// For each shard those that it reaches.
fn reached(alloc: Global, shards: &[ShardSpec]) -> Result<Rows, NoMemory>
    ensures { IfOk result (λ rs. rs ≡ closed (length shards.now) (fed_rows shards.now)) }
{
    let fed = fed_rows(alloc, shards)?;
    let rows = closed(alloc, fed, shards.len())?;
    Ok(rows)
}

/// The first row below the n-th that has its own flag.
fn first_own(rows: &Rows, n: usize) -> Option<usize>
    ensures { IsToldFirst (λ i. flag rows.now i i) n result }
{
    for i in 0..n {
        if bit_at(row_at(rows.as_slice(), i), i) {
            return Some(i);
        }
    }
    None
}

/// The place of the first shard whose outputs reach its own sources, if there is one: a path leads from
/// it to itself, each shard of which writes to a journal that the next reads. Only where there is one are all
/// paths followed, which takes time by the third power of the number of shards.
pub fn first_cycle(alloc: Global, shards: &[ShardSpec]) -> Result<Option<usize>, NoMemory>
    ensures value { IfOk result (λ found. found ≡ first_cycle shards.now) }
    ensures told { IfOk result (λ found. IsToldCycle shards.now found) }
{
    let ordered = is_ordered(alloc, shards)?;
    if ordered {
        return Ok(None);
    }
    let rows = reached(alloc, shards)?;
    let found = first_own(&rows, shards.len());
    Ok(found)
}
