//! What holds of every process.
ghost use Rattle.std.specs.Prelude.{◌≡◌, ◌∷◌, List, None, Option, Some, false, true, ℕ};
ghost use Rattle.gz_frame.specs.Messages.{Message};
ghost use Rattle.gz_keyspace.specs.Mirrors.{Mirrored};
ghost use Rattle.gz_process.specs.Answers.{Answer, Appended, Landed, Done, fate_of};
ghost use Rattle.gz_process.specs.Asking.{is_idle, quiet, settled};
ghost use Rattle.gz_process.specs.Consumers.{Consumer, Deliver, Poll, Restart, idle, process_of};
ghost use Rattle.gz_process.specs.Laws.{AreOwn, CommitsIn, Leads, PublishesLines, is_asked};
ghost use Rattle.gz_process.specs.Processes.{Asked, Commits, Committing, Process, Question};
ghost use Rattle.gz_process.specs.Processes.{Reason, Stopped};
ghost use Rattle.gz_process.specs.Rules.{answered, gives_up, polls, takes};
ghost use Rattle.gz_process.specs.Step.{is_of_nodes, on_answer, step};
ghost use Rattle.gz_process.specs.TakingUp.{acknowledges, blocks_of};
ghost use Rattle.gz_process.specs.Transactions.{transacts};
ghost use Rattle.gz_store.specs.Stores.{Store};
ghost use Rattle.gz_wire.specs.declared.msg.Msg.{Msg};

/// What a consumer doesn't take changes nothing, and nothing is sent: whatever a client sends, what
/// other nodes send to brokers and to the key space, an answer that no process waits for, and a
/// command for a shard that has no process here.
pub fn what_isnt_taken_does_nothing()
    ensures clients { (from : List ℕ) (msg : Msg) (c : Consumer) →
        step c (Deliver from true msg) ≡ idle c }
    ensures nodes { (from : List ℕ) (msg : Msg) (c : Consumer) → is_of_nodes msg ≡ false →
        step c (Deliver from false msg) ≡ idle c }
    ensures unasked { (req : ℕ) (answer : Answer) (c : Consumer) →
        is_asked req c.processes ≡ false → on_answer req answer c ≡ idle c }
    ensures polls { (shard : List ℕ) (now : ℕ) (c : Consumer) →
        process_of shard c.processes ≡ None → step c (Poll shard now) ≡ idle c }
    ensures restarts { (shard : List ℕ) (c : Consumer) →
        process_of shard c.processes ≡ None → step c (Restart shard) ≡ idle c }
{}

/// An answer that a process can't take leaves it as it is: the request waits on.
pub fn an_answer_that_isnt_taken_leaves_the_process()
    ensures { (req : ℕ) (question : Question) (answer : Answer) (p : Process) →
        takes (settled req p) question answer ≡ None → answered req question answer p ≡ p }
{}

/// A process that has stopped sends nothing, and stays so until it begins anew.
pub fn a_stopped_process_sends_nothing()
    ensures polls { (name : List ℕ) (m : Mirrored) (base now : ℕ) (p : Process) (reason : Reason) →
        p.phase ≡ Stopped reason → polls name m base now p ≡ quiet p }
    ensures answers { (req : ℕ) (question : Question) (answer : Answer) (p : Process)
        (reason : Reason) → p.phase ≡ Stopped reason →
        (answered req question answer p).phase ≡ Stopped reason }
    ensures given_up { (p : Process) (reason : Reason) → p.phase ≡ Stopped reason →
        (gives_up p).phase ≡ Stopped reason }
{}

/// While a request waits for its answer, a poll does nothing.
pub fn a_process_that_waits_sends_nothing()
    ensures { (name : List ℕ) (m : Mirrored) (base now : ℕ) (p : Process) (a : Asked)
        (rest : List Asked) → p.asked ≡ a ∷ rest → polls name m base now p ≡ quiet p }
{}

/// Each step of a process goes along an arrow of the picture of phases, or stays. What it publishes
/// before a commit are lines and stays the same until they are in; it commits what it has published
/// for; and what it acknowledges behind its commit are that commit's intents.
pub fn a_process_follows_its_phases()
    ensures polls { (name : List ℕ) (m : Mirrored) (base now : ℕ) (p : Process) →
        Leads p.phase (polls name m base now p).process.phase }
    ensures answers { (req : ℕ) (question : Question) (answer : Answer) (p : Process) →
        Leads p.phase (answered req question answer p).phase }
    ensures given_up { (p : Process) → Leads p.phase (gives_up p).phase }
{}

/// A process appends to its log under its own author alone: a handoff that puts this author into
/// the register, or a commit that lands only while the register names it. All else that it appends
/// are the lines and acknowledgements of its phase, and these touch no register.
pub fn a_process_appends_as_its_author()
    ensures { (name : List ℕ) (m : Mirrored) (base now : ℕ) (p : Process) →
        AreOwn p (polls name m base now p).sends }
{}

/// Before its commit, a process puts CONTINUE lines alone into its outputs: readers take none of
/// them before the acknowledgement, which comes behind the commit.
pub fn only_lines_stand_before_their_commit()
    ensures polls { (name : List ℕ) (m : Mirrored) (base now : ℕ) (p : Process) →
        PublishesLines p.phase → PublishesLines (polls name m base now p).process.phase }
    ensures answers { (req : ℕ) (question : Question) (answer : Answer) (p : Process) →
        PublishesLines p.phase → PublishesLines (answered req question answer p).phase }
    ensures given_up { (p : Process) → PublishesLines p.phase → PublishesLines (gives_up p).phase }
{}

/// What a transaction commits is the application's state after the messages that it consumed, the
/// place of each source behind them, and an acknowledgement for each journal that gets lines.
pub fn a_transaction_commits_what_it_consumed()
    ensures { (p : Process) (now : ℕ) (messages : List Message) →
        CommitsIn p messages (transacts p now messages).phase }
{}

/// A commit that has landed is the process's state, and its acknowledgements are what comes next.
pub fn a_landed_commit_is_acknowledged()
    ensures { (req len author : ℕ) (done : Done) (p : Process) (store : Store) →
        p.phase ≡ Committing store → p.author ≡ Some author → fate_of len done ≡ Landed →
        let after = answered req (Commits len) (Appended done) p in
        (after.state ≡ store.state)
        × (after.phase ≡ (acknowledges (blocks_of store.checkpoint.intents) p).phase) }
{}
