//! What is told of journals and shards.
ghost use Rattle.std.specs.Prelude.{◌≡◌, map, IfOk};
ghost use Rattle.gz_promise.specs.Journals.{text_in};
ghost use Rattle.gz_plain.specs.Reports.{count_committed as committed_in, is_none, report_of};
ghost use Rattle.gz_plain.specs.Running.{AllKept, IsKept};
ghost use Rattle.gz_plain.specs.Seen.{shard_of, shards_of};
ghost use Rattle.gz_plain.specs.Shards.{untaken};

use crate::feed::feed_journal;
use crate::journals::{Journal, Journals};
use crate::reader::drain;
use crate::shard::Shard;
use gz_app::print_state;
use gz_frame::Messages;
use gz_label::{Blob, Name, NoMemory};
use gz_sequencer::Sequencer;
use std::alloc::Global;

/// What is told of a shard.
#[derive(Debug, Drop)]
pub struct ShardReport {
    /// The shard's id.
    pub id: Name,
    /// How many commits there are.
    pub commits: usize,
    /// How many messages they have read.
    pub messages: u64,
    /// Whether all that the sources have committed is read.
    pub is_caught: bool,
    /// Whether the shard takes no steps.
    pub is_disabled: bool,
    /// The application's state as compact JSON.
    pub store: Blob,
}

/// Whether nothing is released that isn't taken.
#[tactic(auto, using(crate::proofs::Stepping::untaken_is))]
fn is_caught(alloc: Global, shard: &Shard, journals: &Journals) -> Result<bool, NoMemory>
    requires { IsKept journals.now shard.now }
    ensures { IfOk result (λ is. is ≡ is_none (untaken journals.now (shard_of shard.now))) }
{
    let news = shard.readers.news(alloc, journals)?;
    Ok(news.as_slice().is_empty())
}

fn report(alloc: Global, shard: &Shard, journals: &Journals) -> Result<ShardReport, NoMemory>
    requires { IsKept journals.now shard.now }
    ensures { IfOk result (λ report. report ≡ report_of journals.now (shard_of shard.now)) }
{
    let is_caught = is_caught(alloc, shard, journals)?;
    let store = print_state(alloc, &shard.store)?;
    let id = shard.id.copy()?;
    Ok(ShardReport {
        id,
        commits: shard.commits.len(),
        messages: shard.messages,
        is_caught,
        is_disabled: shard.is_disabled,
        store,
    })
}

/// What is told of each shard.
pub fn report_all(
    alloc: Global,
    shards: &[Shard],
    journals: &Journals,
) -> Result<Vec<ShardReport>, NoMemory>
    requires { AllKept journals.now shards.now }
    ensures { IfOk result
        (λ reports. reports.items ≡ map (report_of journals.now) (shards_of shards.now)) }
{
    let mut reports = Vec::new(alloc);
    for shard in shards {
        let told = report(alloc, shard, journals)?;
        reports.push(told)?;
    }
    Ok(reports)
}

/// How many messages of a journal's text are committed.
#[tactic(auto, using(crate::proofs::Pieces::whole_text, crate::proofs::Reading::fed_released))]
pub fn count_committed(alloc: Global, journal: &Journal) -> Result<usize, NoMemory>
    ensures { IfOk result (λ count. count ≡ committed_in (text_in journal.now)) }
{
    let mut sequencer = Sequencer::new(alloc, 0);
    feed_journal(journal, &mut sequencer, journal.end())?;
    let mut messages = Messages::new(alloc);
    drain(&mut sequencer, &mut messages)?;
    Ok(messages.as_slice().len())
}
