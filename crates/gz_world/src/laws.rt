//! What a run promises.
ghost use Rattle.std.specs.Prelude.{◌≡◌, List, ℕ, Ok, Option, Some};
ghost use Rattle.gz_converge.specs.declared.answer.Converged.{Converged};
ghost use Rattle.gz_plain.specs.Promise.{AllCommitLines, AllExactlyOnce, AllServe};
ghost use Rattle.gz_plain.specs.Rests.{AllRest};
ghost use Rattle.gz_plain.specs.Reports.{AllTellCaught, AllUpToDate};
ghost use Rattle.gz_world.specs.Worlds.{World, IsRun, converged_if, settled};
ghost use Rattle.gz_world.specs.Run.{Scenario, IsLawful, outcome_from, IsSaid};

/// Whatever the lines are, if they give a scenario: they say its events, each of which is one that reading accepts.
pub fn a_scenario_is_what_its_lines_say()
    ensures lawful { (lines : List (List ℕ)) (s : Scenario) → outcome_from lines ≡ Ok (Some s) →
        IsLawful s }
    ensures said { (lines : List (List ℕ)) (s : Scenario) → outcome_from lines ≡ Ok (Some s) →
        IsSaid lines s }
{}

/// Whatever events a run had, whatever journals and shards they added or changed on the way: of each shard that kept the
/// definition that it began with, each committed message of its sources is taken once and in order, its store is the
/// application's fold over them, and readers of its outputs accept what the application emits for them. A client that
/// writes transactions, or messages one by one, is read as it wrote, each message once. Each offset of a commit is the
/// end of a whole line.
#[tactic(auto, using(crate::proofs::Promises::run_once, crate::proofs::Promises::run_serves, crate::proofs::Promises::run_lines))]
pub fn every_run_is_exactly_once()
    ensures once { (w : World) → IsRun w → AllExactlyOnce w.cluster.journals w.cluster.shards }
    ensures users { (w : World) → IsRun w → AllServe w.cluster.journals w.cluster.shards }
    ensures lines { (w : World) → IsRun w → AllCommitLines w.cluster.journals w.cluster.shards }
{}

/// Whatever events a run had, and whatever its converge answers: a settle after them ends with each shard that kept its
/// definition at rest. It is disabled, has no clocks left for what it would take, or has read all that its sources have
/// committed.
#[tactic(auto, using(crate::proofs::Promises::run_rests))]
pub fn a_settle_ends_every_run()
    ensures { (w : World) → (answer : Option Converged) → IsRun w →
        AllRest (settled (converged_if answer w)).cluster.journals
        (settled (converged_if answer w)).cluster.shards }
{}

/// What a report tells of a shard that kept its definition is so: `caught` exactly where nothing that its sources have
/// committed is left to read. After a settle it isn't behind: it is caught, disabled, or has no clocks left.
#[tactic(auto, using(crate::proofs::Promises::run_tells, crate::proofs::Promises::run_settled_tells))]
pub fn what_a_report_tells_is_so()
    ensures caught { (w : World) → IsRun w → AllTellCaught w.cluster.journals w.cluster.shards }
    ensures settled { (w : World) → (answer : Option Converged) → IsRun w →
        AllUpToDate (settled (converged_if answer w)).cluster.journals
        (settled (converged_if answer w)).cluster.shards }
{}
