//! Levels of journals, which show that no shard reaches itself: each shard's outputs are above its sources.
ghost use Rattle.std.specs.Prelude.{◌≡◌, ℕ, IfOk, true};
ghost use Rattle.gz_links.specs.Cycles.{Reaches};
ghost use Rattle.gz_links.specs.Levels.{level_of, greatest, climbs, all_climb};

use gz_label::{Label, Name, NoMemory};
use gz_spec::{ShardSpec, SourceSpec};
use indexmap::IndexSet;
use std::alloc::Global;

/// The level of this journal, or 0 where no shard writes to it.
fn level_of(journals: &IndexSet<Name>, levels: &[usize], name: &Name) -> usize
    ensures { result ≡ level_of journals.now.keys levels.now name.now }
{
    let Some(j) = journals.get_index_of(name) else {
        return 0;
    };
    match levels.get(j) {
        Some(level) => *level,
        None => 0,
    }
}

/// The greatest level of the sources.
fn greatest(journals: &IndexSet<Name>, levels: &[usize], sources: &[SourceSpec]) -> usize
    ensures { result ≡ greatest (level_of journals.now.keys levels.now) 0 sources.now }
{
    let mut greatest = 0;
    for source in sources {
        let level = level_of(journals, levels, &source.journal);
        greatest = greatest.max(level);
    }
    greatest
}

/// Whether each output has a greater level than each source.
fn climbs(journals: &IndexSet<Name>, levels: &[usize], shard: &ShardSpec) -> bool
    ensures { result ≡ climbs (level_of journals.now.keys levels.now) shard.now }
{
    let greatest = greatest(journals, levels, shard.sources.as_slice());
    for label in shard.labels.as_slice() {
        if label.name.as_slice() == b"output".as_slice()
            && level_of(journals, levels, &label.value) <= greatest
        {
            return false;
        }
    }
    true
}

fn all_climb(journals: &IndexSet<Name>, levels: &[usize], shards: &[ShardSpec]) -> bool
    ensures { result ≡ all_climb (level_of journals.now.keys levels.now) shards.now }
{
    for shard in shards {
        if !climbs(journals, levels, shard) {
            return false;
        }
    }
    true
}

fn note_outputs(journals: &mut IndexSet<Name>, shard: &ShardSpec) -> Result<(), NoMemory> {
    for label in shard.labels.as_slice() {
        if label.name.as_slice() == b"output".as_slice() && !journals.contains(&label.value) {
            let journal = label.value.copy()?;
            journals.insert(journal)?;
        }
    }
    Ok(())
}

/// The journals that the shards write to, each once.
fn written(alloc: Global, shards: &[ShardSpec]) -> Result<IndexSet<Name>, NoMemory> {
    let mut journals = IndexSet::new(alloc);
    for shard in shards {
        note_outputs(&mut journals, shard)?;
    }
    Ok(journals)
}

/// Shards that wait for others to be taken away: for those that feed them.
#[derive(Drop)]
struct Waiting {
    /// For each journal the outputs, of shards that aren't taken, that name it.
    writers: Vec<usize>,
    /// For each journal the places of the shards that read it.
    readers: Vec<Vec<usize>>,
    /// For each shard the sources that such outputs name.
    sources: Vec<usize>,
    /// For each journal its level, once no output of a shard that isn't taken names it.
    levels: Vec<usize>,
    /// The places of shards with no such source, in the order in which they are taken.
    order: Vec<usize>,
}

fn add_one(counts: &mut [usize], i: usize) {
    if i < counts.len() {
        counts[i] = counts[i].saturating_add(1);
    }
}

/// Whether this was the last.
fn take_one(counts: &mut [usize], i: usize) -> bool {
    if i < counts.len() {
        counts[i] = counts[i].saturating_sub(1);
        return counts[i] == 0;
    }
    false
}

fn count_outputs(journals: &IndexSet<Name>, writers: &mut [usize], labels: &[Label]) {
    for label in labels {
        if label.name.as_slice() == b"output".as_slice() {
            if let Some(j) = journals.get_index_of(&label.value) {
                add_one(writers, j);
            }
        }
    }
}

fn add_reader(readers: &mut [Vec<usize>], j: usize, reader: usize) -> Result<(), NoMemory> {
    if j < readers.len() {
        readers[j].push(reader)?;
    }
    Ok(())
}

fn release(
    sources: &mut [usize],
    order: &mut Vec<usize>,
    readers: &[usize],
) -> Result<(), NoMemory> {
    for reader in readers {
        if take_one(sources, *reader) {
            order.push(*reader)?;
        }
    }
    Ok(())
}

impl Waiting {
    fn new(alloc: Global, journals: usize) -> Result<Waiting, NoMemory> {
        let mut writers = Vec::new(alloc);
        let mut readers = Vec::new(alloc);
        let mut levels = Vec::new(alloc);
        for _ in 0..journals {
            writers.push(0)?;
            readers.push(Vec::new(alloc))?;
            levels.push(0)?;
        }
        Ok(Waiting {
            writers,
            readers,
            sources: Vec::new(alloc),
            levels,
            order: Vec::new(alloc),
        })
    }

    /// Notes the sources of the shard at this place, and how many of them shards write to.
    fn add_sources(
        &mut self,
        journals: &IndexSet<Name>,
        place: usize,
        sources: &[SourceSpec],
    ) -> Result<(), NoMemory> {
        let mut fed: usize = 0;
        for source in sources {
            if let Some(j) = journals.get_index_of(&source.journal) {
                add_reader(self.readers.as_mut_slice(), j, place)?;
                fed = fed.saturating_add(1);
            }
        }
        self.sources.push(fed)?;
        if fed == 0 {
            self.order.push(place)?;
        }
        Ok(())
    }

    fn add(
        &mut self,
        journals: &IndexSet<Name>,
        place: usize,
        shard: &ShardSpec,
    ) -> Result<(), NoMemory> {
        count_outputs(
            journals,
            self.writers.as_mut_slice(),
            shard.labels.as_slice(),
        );
        self.add_sources(journals, place, shard.sources.as_slice())
    }
    /// Gives the journal its level, and lets each shard that reads it wait for one less.
    fn settle(&mut self, j: usize, level: usize) -> Result<(), NoMemory> {
        if j < self.levels.len() && j < self.readers.len() {
            self.levels[j] = level;
            release(
                self.sources.as_mut_slice(),
                &mut self.order,
                self.readers[j].as_slice(),
            )?;
        }
        Ok(())
    }

    /// Takes a shard of these labels away.
    fn take(
        &mut self,
        journals: &IndexSet<Name>,
        labels: &[Label],
        level: usize,
    ) -> Result<(), NoMemory> {
        for label in labels {
            if label.name.as_slice() == b"output".as_slice() {
                if let Some(j) = journals.get_index_of(&label.value) {
                    if take_one(self.writers.as_mut_slice(), j) {
                        self.settle(j, level)?;
                    }
                }
            }
        }
        Ok(())
    }

    /// Takes shards away, one after another, until none is left that waits for no other.
    fn take_all(
        &mut self,
        journals: &IndexSet<Name>,
        shards: &[ShardSpec],
    ) -> Result<(), NoMemory> {
        for k in 0..shards.len() {
            if k < self.order.len() {
                let place = self.order[k];
                if place < shards.len() {
                    let shard = &shards[place];
                    self.take(journals, shard.labels.as_slice(), k + 1)?;
                }
            }
        }
        Ok(())
    }
}

/// Levels for the journals: shards that no other feeds are taken away, again and again, and a journal's level
/// says when the last that writes to it was. What is written to by a shard that is left has level 0. No clause
/// speaks of them, since `all_climb` judges whether they serve.
fn levels_of(
    alloc: Global,
    journals: &IndexSet<Name>,
    shards: &[ShardSpec],
) -> Result<Vec<usize>, NoMemory> {
    let mut waiting = Waiting::new(alloc, journals.len())?;
    for (place, shard) in shards.iter().enumerate() {
        waiting.add(journals, place, shard)?;
    }
    waiting.take_all(journals, shards)?;
    Ok(waiting.levels)
}

/// Whether journals have levels by which no shard reaches itself. It takes time and memory by the shards, their
/// sources and their outputs.
pub fn is_ordered(alloc: Global, shards: &[ShardSpec]) -> Result<bool, NoMemory>
    ensures { IfOk result (λ ordered. ordered ≡ true → (i : ℕ) → Reaches shards.now i i → ⊥) }
{
    let journals = written(alloc, shards)?;
    let levels = levels_of(alloc, &journals, shards)?;
    let ordered = all_climb(&journals, levels.as_slice(), shards);
    Ok(ordered)
}
