//! What the promise refuses, and what it says of a shard at rest.
ghost use Rattle.std.specs.Prelude.{◌≡◌, ◌++◌, ◌-◌, ◌^◌, min, ℕ, List, [], None};
ghost use Rattle.gz_model.specs.Prefix.{IsPrefix};
ghost use Rattle.gz_frame.specs.Messages.{Message};
ghost use Rattle.gz_app.specs.Applications.{Output};
ghost use Rattle.gz_frame.specs.Release.{of_producer};
ghost use Rattle.gz_frame.specs.Text.{messages_of};
ghost use Rattle.gz_sequencer.specs.Committed.{committed, messages_alone};
ghost use Rattle.gz_sequencer.specs.Transactions.{AreTransactions, Line, Transaction, lines_in, messages_in_lines, text_of, text_of_lines};
ghost use Rattle.gz_app.specs.States.{State, number_at};
ghost use Rattle.gz_app.specs.declared.app.AppKind.{AppKind as App};
ghost use Rattle.gz_promise.specs.Accounts.{Account};
ghost use Rattle.gz_app.specs.declared.app.AppKind.TheVariants.{Count};
ghost use Rattle.gz_promise.specs.Applications.{folded};
ghost use Rattle.gz_promise.specs.Clients.{AreSingles, IsSource, ServesUsers, count_of, read_from};
ghost use Rattle.gz_promise.specs.Laws.{takes_nothing, takes_two_orders};
ghost use Rattle.gz_promise.specs.Promise.{AreRead, ExactlyOnce, NothingCommitted, ReadsAll, messages_in, read_order};

/// A source has two committed messages, the first commit has no offset for it and the second one its end, so that each
/// commit's part is empty: no store and no outputs make that exactly once.
#[tactic(auto, using(crate::proofs::Refused::nothing_refused))]
pub fn what_takes_nothing_is_refused()
    ensures { (app : App) (m n : Message) (first second store : State)
        (outputs : List (List Output)) →
        ExactlyOnce (takes_nothing app m n first second store outputs) → ⊥ }
{}

/// Of each source, what stands in the read order is what the commits' offsets have read of it.
#[tactic(auto, using(crate::proofs::Orders::are_read))]
pub fn a_read_order_has_what_offsets_say()
    ensures { (a : Account) (once : ExactlyOnce a) →
        AreRead 0 a.commits a.sources (read_order a once) }
{}

/// Where nothing is left to read, the read order is empty only if no source has committed anything.
#[tactic(auto, using(crate::proofs::Orders::nothing_committed))]
pub fn a_shard_at_rest_has_read()
    ensures { (a : Account) (once : ExactlyOnce a) → ReadsAll a → read_order a once ≡ [] →
        NothingCommitted a.sources }
{}

/// The states of the commits and what readers accept speak of one order: a shard that has `a` before `b` in its states,
/// and whose readers accept the output of `b` before that of `a`, isn't exactly once.
#[tactic(auto, using(crate::proofs::Refused::two_orders_refused))]
pub fn one_order_is_kept()
    ensures { ExactlyOnce takes_two_orders → ⊥ }
{}

/// A client writes transactions into a journal, and repeats lines as it likes: of its messages there, the read order of a
/// shard that has the journal as a source has a prefix, each once, in the client's order.
pub fn a_client_of_transactions_is_read_once()
    ensures { (a : Account) (once : ExactlyOnce a) (k offset : ℕ) (text client : List ℕ)
        (ts : List Transaction) (waiting : List Line) →
        IsSource k a.sources (record { from = offset; committed = committed offset text }) → AreTransactions None ts waiting →
        of_producer client (messages_alone (messages_of offset text)) ≡ text_of ts ++ text_of_lines waiting →
        IsPrefix (read_from k client (read_order a once)) (lines_in ts) }
{}

/// The same of a client whose messages stand by themselves, one by one, and again as often as it likes.
pub fn a_client_of_messages_is_read_once()
    ensures { (a : Account) (once : ExactlyOnce a) (k offset : ℕ) (text client : List ℕ)
        (ls : List Line) →
        IsSource k a.sources (record { from = offset; committed = committed offset text }) → AreSingles None ls →
        of_producer client (messages_alone (messages_of offset text)) ≡ text_of_lines ls →
        IsPrefix (read_from k client (read_order a once)) (messages_in_lines ls) }
{}

/// The store is the application's fold over the read order. With `count`, the number of a key is how often that key stands
/// in the read order, up to the greatest number of 64 bits.
#[tactic(auto, using(crate::proofs::Counts::store_folds, crate::proofs::Counts::counts))]
pub fn a_store_is_of_the_read_order()
    ensures store { (a : Account) (once : ExactlyOnce a) →
        a.store ≡ folded a.app [] (messages_in (read_order a once)) }
    ensures count { (a : Account) (once : ExactlyOnce a) (key : List ℕ) → a.app ≡ Count →
        number_at key a.store ≡ min (count_of key (messages_in (read_order a once))) (2 ^ 64 - 1) }
{}

/// Whatever an account is, if it is exactly once: clients are read as they wrote, and counts are those of the read
/// order.
#[tactic(auto, using(crate::proofs::Users::serves))]
pub fn exactly_once_serves_users()
    ensures { (a : Account) (once : ExactlyOnce a) → ServesUsers a once }
{}
