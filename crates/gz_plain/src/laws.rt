//! What a shard promises, for every list of happenings.
ghost use Rattle.std.specs.Prelude.{◌≡◌, ℕ, List, map, true};
ghost use Rattle.gz_plain.specs.Definitions.{Definition, AllGoOn, definition_of};
ghost use Rattle.gz_plain.specs.Promise.{AllCommitLines, AllExactlyOnce, AllServe};
ghost use Rattle.gz_promise.specs.Order.{AreInOrder};
ghost use Rattle.gz_plain.specs.Rests.{AllRest, wirings_of};
ghost use Rattle.gz_plain.specs.Reports.{AllTellCaught, AllUpToDate};
ghost use Rattle.gz_plain.specs.Shards.{World, round, settled};
ghost use Rattle.gz_plain.specs.Runs.{Event, MayAllHappen, after_events, changed, continues, nothing};

/// Any number of journals and of shards over their texts, each with several sources, outputs and one of the
/// applications, whatever clients publish, however often everything settles, and whatever journals and shards are
/// added or have another definition on the way. Of each shard that kept the definition that it began with: each
/// committed message of its sources is taken once and in order, its store is the application's fold over that one read
/// order, and readers of each of its outputs accept what the fold emits to it, each once and in order. A client that
/// writes transactions, or messages one by one, is read as it wrote, each message once. Each offset of a commit is the
/// end of a whole line.
#[tactic(auto, using(crate::proofs::Promises::all_exactly_once_after, crate::proofs::Promises::all_serve_after, crate::proofs::Promises::all_lines_after))]
pub fn every_shard_is_exactly_once()
    ensures once { (es : List Event) → MayAllHappen es nothing →
        AllExactlyOnce (after_events es nothing).journals (after_events es nothing).shards }
    ensures users { (es : List Event) → MayAllHappen es nothing →
        AllServe (after_events es nothing).journals (after_events es nothing).shards }
    ensures lines { (es : List Event) → MayAllHappen es nothing →
        AllCommitLines (after_events es nothing).journals (after_events es nothing).shards }
{}

/// Where a journal's writers come before its readers, a settle ends: a further round changes nothing, and each
/// shard that kept its definition is disabled, has no clocks left for what it would take, or has read all that its
/// sources have committed.
#[tactic(auto, using(crate::proofs::Promises::settled_stays, crate::proofs::Promises::all_rest_after))]
pub fn a_settle_ends()
    ensures stays { (rank : List ℕ → ℕ) (w : World) → AreInOrder rank (wirings_of w.shards) →
        round (settled w).shards (settled w).journals ≡ settled w }
    ensures rests { (es : List Event) (rank : List ℕ → ℕ) → MayAllHappen es nothing →
        AreInOrder rank (wirings_of (after_events es nothing).shards) →
        AllRest (settled (after_events es nothing)).journals (settled (after_events es nothing)).shards }
{}

/// What is told of a shard that kept its definition is so: it is told to be caught up exactly where nothing that its
/// sources have committed is left to read. After a settle it isn't behind: it is told to be caught up, unless it is
/// disabled or has no clocks left.
pub fn what_is_told_is_so()
    ensures caught { (es : List Event) → MayAllHappen es nothing →
        AllTellCaught (after_events es nothing).journals (after_events es nothing).shards }
    ensures settled { (rank : List ℕ → ℕ) (w : World) → AreInOrder rank (wirings_of w.shards) →
        AllUpToDate (settled w).journals (settled w).shards }
{}

/// A change makes the shards what was said of them, and loses none: each one that was there goes on, with the same id,
/// producer, last clock, state and number of commits.
#[tactic(auto, using(crate::proofs::Changes::definitions_changed, crate::proofs::Changes::all_go_on_changed))]
pub fn a_change_loses_no_shard()
    ensures said { (names : List (List ℕ)) (ds : List Definition) (w : World) →
        map definition_of (changed names ds w).shards ≡ ds }
    ensures goes_on { (names : List (List ℕ)) (ds : List Definition) (w : World) →
        continues ds w.shards ≡ true → AllGoOn w.shards (changed names ds w).shards }
{}
