//! Rounds of steps.
ghost use Rattle.std.specs.Prelude.{◌≡◌, ◌&&◌, true, IfOk, OnOk};
ghost use Rattle.gz_plain.specs.Places.{names_of};
ghost use Rattle.gz_plain.specs.Running.{AllKept};
ghost use Rattle.gz_promise.specs.Names.{Distinct};
ghost use Rattle.gz_plain.specs.Seen.{shards_of};
ghost use Rattle.gz_plain.specs.Shards.{round, settled};

use crate::journals::Journals;
use crate::shard::Shard;
use gz_label::NoMemory;
use std::alloc::Global;

/// Shards after a round, and whether no step did anything.
#[derive(Drop)]
struct Round {
    shards: Vec<Shard>,
    is_quiet: bool,
}

fn both(a: bool, b: bool) -> bool
    ensures { result ≡ (a && b) }
{
    a && b
}

/// Each shard in turn makes a step.
fn step_each(alloc: Global, shards: Vec<Shard>, journals: &mut Journals) -> Result<Round, NoMemory>
    requires names { Distinct (names_of journals.old) }
    requires kept { AllKept journals.old shards.items }
    ensures round { IfOk result
        (λ after. record { journals = journals.new; shards = shards_of after.shards.items }
        ≡ round (shards_of shards.items) journals.old) }
    ensures kept { IfOk result (λ after. AllKept journals.new after.shards.items) }
    ensures names { OnOk result (names_of journals.new ≡ names_of journals.old) }
    ensures quiet { IfOk result
        (λ after. after.is_quiet ≡ true →
        round (shards_of shards.items) journals.old
        ≡ record { journals = journals.old; shards = shards_of shards.items }) }
{
    let mut after = Vec::new(alloc);
    let mut is_quiet = true;
    for shard in shards {
        let stepped = shard.step(alloc, journals)?;
        is_quiet = both(is_quiet, stepped.is_quiet);
        after.push(stepped.shard)?;
    }
    Ok(Round {
        shards: after,
        is_quiet,
    })
}

/// Rounds, one after another, until one is quiet. There are at most as many as shards.
pub fn settle_all(
    alloc: Global,
    shards: Vec<Shard>,
    journals: &mut Journals,
) -> Result<Vec<Shard>, NoMemory>
    requires names { Distinct (names_of journals.old) }
    requires kept { AllKept journals.old shards.items }
    ensures settled { IfOk result
        (λ after. record { journals = journals.new; shards = shards_of after.items }
        ≡ settled (record { journals = journals.old; shards = shards_of shards.items })) }
    ensures kept { IfOk result (λ after. AllKept journals.new after.items) }
    ensures names { OnOk result (names_of journals.new ≡ names_of journals.old) }
{
    let count = shards.len();
    let mut shards = shards;
    for _i in 0..count {
        let after = step_each(alloc, shards, journals)?;
        shards = after.shards;
        if after.is_quiet {
            return Ok(shards);
        }
    }
    Ok(shards)
}
