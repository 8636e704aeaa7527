//! Laws of the release rule and of sequencers.
ghost use Rattle.std.specs.Prelude.{◌≡◌, ◌≤◌, ◌++◌, ◌-◌, ℕ, List, [], drop, None};
ghost use Rattle.gz_model.specs.Prefix.{IsPrefix};
ghost use Rattle.gz_frame.specs.Text.{Placed, messages_of};
ghost use Rattle.gz_frame.specs.Release.{of_producer};
ghost use Rattle.gz_sequencer.specs.Committed.{messages_alone, released_in, committed_after, committed};
ghost use Rattle.gz_sequencer.specs.Parts.{releases_of_all};
ghost use Rattle.gz_sequencer.specs.Machine.{Point, started, fed, at, point_of, resumed};
ghost use Rattle.gz_sequencer.specs.Transactions.{Line, Transaction, AreTransactions, text_of, text_of_lines, lines_in};
ghost use Rattle.gz_sequencer.specs.Calls.{Call, after_calls, given, text_in};

/// Message by message, what is kept of each producer releases what the release rule says.
pub fn released_is_committed()
    ensures { (ps : List Placed) → releases_of_all 0 [] ps ≡ released_in (committed_after [] ps) }
{}

/// What a prefix of a text commits is a prefix of what the text commits.
#[tactic(auto, using(crate::proofs::Resuming::prefix_commits_prefix))]
pub fn prefix_commits_prefix()
    ensures { (offset : ℕ) (prefix back : List ℕ) →
        IsPrefix (committed offset prefix) (committed offset (prefix ++ back)) }
{}

/// What one producer writes as transactions, whatever other producers' messages and other lines stand between: of this
/// producer exactly the transactions' lines are released, each once and in order. Lines of a transaction that stand
/// again inside it and lines that stand again behind its acknowledgement add nothing, nor do lines at the end that
/// aren't acknowledged.
#[tactic(auto, using(crate::proofs::Transactions::transactions_released))]
pub fn transactions_are_released()
    ensures { (offset : ℕ) (text producer : List ℕ) (ts : List Transaction) (waiting : List Line) →
        AreTransactions None ts waiting →
        of_producer producer (messages_alone (messages_of offset text)) ≡ text_of ts ++ text_of_lines waiting →
        of_producer producer (released_in (committed offset text)) ≡ lines_in ts }
{}

/// Whatever pieces a text is fed in, and whenever messages are taken: those that were given and those that are left
/// are the committed messages of the text.
#[tactic(auto, using(crate::proofs::AnyCuts::given_is_committed))]
pub fn given_is_committed()
    ensures { (offset : ℕ) (calls : List Call) →
        given calls (started offset) ++ (after_calls calls (started offset)).released ≡ released_in (committed offset (text_in calls)) }
{}

/// A sequencer that is made from the checkpoint of a text, and is fed this text and what follows from the offset on
/// that it wants: what it releases is the rest of what is committed.
pub fn resumed_releases_the_rest()
    ensures { (offset : ℕ) (text more : List ℕ) →
        let resuming = resumed (point_of (fed (started offset) text)) in
        released_in (committed offset text) ++ (fed resuming (drop (at resuming - offset) (text ++ more))).released
        ≡ released_in (committed offset (text ++ more)) }
{}

/// Its checkpoint is then that of a sequencer that was fed all of the text. So the same holds of one that is made
/// from that checkpoint in turn.
pub fn resumed_checkpoints_agree()
    ensures { (offset : ℕ) (text more : List ℕ) →
        let resuming = resumed (point_of (fed (started offset) text)) in
        point_of (fed resuming (drop (at resuming - offset) (text ++ more))) ≡ point_of (fed (started offset) (text ++ more)) }
{}

/// Until the lines below the offset of a checkpoint are fed again, a sequencer that is made from it has this
/// checkpoint, unchanged.
pub fn checkpoint_stays()
    ensures { (point : Point) (bytes : List ℕ) → (fed (resumed point) bytes).begin ≤ point.offset →
        point_of (fed (resumed point) bytes) ≡ point }
{}
