//! The same in the words of somebody who runs such shards.
ghost use Rattle.std.specs.Prelude.{◌++◌, ℕ, List};
ghost use Rattle.gz_once.specs.Applications.{App};
ghost use Rattle.gz_once.specs.Theorem.{IsFenced, LandsNothing, OneCommits, WithoutGap};
ghost use Rattle.gz_once.specs.Worlds.{Event, run, start};

/// A process that was fenced never lands a commit again, whatever it sent before or sends later.
pub fn a_fenced_process_never_lands_again()
    ensures { (g : App) (events later : List Event) (author : ℕ) →
        IsFenced author (run g events start).shared →
        LandsNothing author (run g events start).shared (run g (events ++ later) start).shared }
{}

/// A process that crashes anywhere leaves a log from which the next one goes on without a gap.
#[tactic(auto, using(crate::proofs::Operators::without_gap))]
pub fn a_crash_leaves_no_gap()
    ensures { (g : App) (events : List Event) → WithoutGap g (run g events start).shared }
{}

/// Two processes at once can't both commit after the second one's handoff.
#[tactic(auto, using(crate::proofs::Operators::one_commits))]
pub fn two_processes_cannot_both_commit()
    ensures { (g : App) (events : List Event) → OneCommits (run g events start) }
{}
