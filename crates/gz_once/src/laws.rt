//! What holds after every list of events.
ghost use Rattle.std.specs.Prelude.{◌++◌, List};
ghost use Rattle.gz_once.specs.Applications.{App};
ghost use Rattle.gz_once.specs.Consumed.{IsSequenced, PartsJoin};
ghost use Rattle.gz_once.specs.Theorem.{AcknowledgedBefore, ExactlyOnce, Fenced, Grown, OfCommits, OneMessage, OneProcess};
ghost use Rattle.gz_once.specs.Worlds.{Event, run, start};

/// The log, the outputs and the sources only grow.
#[tactic(auto, using(crate::proofs::Grows::grows))]
pub fn journals_only_grow()
    ensures { (g : App) (events later : List Event) →
        Grown (run g events start).shared (run g (events ++ later) start).shared }
{}

/// The log's register is absent or names the author in force, every record of the log is accepted, so that each commit
/// is there whole, and behind a handoff stands nothing of an author from before it.
pub fn the_author_register_fences()
    ensures { (g : App) (events : List Event) → Fenced (run g events start).shared }
{}

/// Every acknowledgement of a producer of the shard, in an output or sent to one, wherever it now is, is an intent of a
/// commit in the log.
#[tactic(auto, using(crate::proofs::Messages::of_commits_all))]
pub fn acknowledgements_are_of_commits()
    ensures { (g : App) (events : List Event) → OfCommits g (run g events start).shared }
{}

/// In all outputs, and in all that was sent to them, one producer and clock stand for one message, and for one output
/// but for acknowledgements. No two processes hold one author or one producer.
#[tactic(auto, using(crate::proofs::Claims::one_process))]
pub fn one_clock_one_message()
    ensures message { (g : App) (events : List Event) → OneMessage (run g events start).shared }
    ensures process { (g : App) (events : List Event) → OneProcess (run g events start) }
{}

/// Where a commit stands, all acknowledgements of the commit before it are in their outputs.
pub fn acknowledged_before_the_next_commit()
    ensures { (g : App) (events : List Event) → AcknowledgedBefore g (run g events start).shared }
{}

/// The recovered store is the application's fold over one read order. Of each source, what was read is a prefix of its
/// committed messages, each once and in order. Readers of each output accept what the commits emit to it, each once and
/// in order, of the last commit all or nothing.
#[tactic(auto, using(crate::proofs::Claims::once))]
pub fn a_shard_is_exactly_once()
    ensures { (g : App) (events : List Event) → ExactlyOnce g (run g events start).shared }
{}

/// What a commit consumes of a source is what a sequencer releases that was made from the checkpoint of the commit
/// before, and one that runs on over several commits releases one part after another.
#[tactic(auto, using(crate::proofs::Parts::sequenced, crate::proofs::Parts::joins))]
pub fn a_commit_consumes_what_a_sequencer_releases()
    ensures resumed { IsSequenced }
    ensures runs_on { PartsJoin }
{}
