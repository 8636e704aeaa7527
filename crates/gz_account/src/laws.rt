//! The promise of a shard whose processes stop, move and run twice.
ghost use Rattle.std.specs.Prelude.{◌≡◌, ◌≤◌, List};
ghost use Rattle.gz_app.specs.declared.app.AppKind.{AppKind as Kind};
ghost use Rattle.gz_frame.specs.Messages as frame;
ghost use Rattle.gz_promise.specs.Promise.{ExactlyOnce};
ghost use Rattle.gz_reader.specs.Coding.{TellsProducers, coded};
ghost use Rattle.gz_once.specs.Worlds.{Event, run, start};
ghost use Rattle.gz_account.specs.Account.{Numbers, AreReadBack, Wiring, numbered, account_of};
ghost use Rattle.gz_account.specs.Numbers.{plain_numbers, told_by_numbers};

/// Whatever is lost, late, written twice or run by several processes at once: of a shard of any of the applications, with
/// any number of sources and outputs, the promise holds after every list of events.
pub fn a_shard_keeps_the_promise()
    ensures { (app : Kind) (w : Wiring) (events : List Event) →
        ExactlyOnce (account_of plain_numbers app w (run (numbered plain_numbers app w) events start).shared) }
{}

/// It holds by whatever numbers the shard's states and outputs are told and read back.
pub fn any_numbers_will_do()
    ensures { (n : Numbers) → AreReadBack n → (app : Kind) (w : Wiring) (events : List Event) →
        ExactlyOnce (account_of n app w (run (numbered n app w) events start).shared) }
{}

/// The plain numbers of states, outputs and messages are read back, and tell producers apart.
#[tactic(auto, using(crate::proofs::ReadBack::read_back, crate::proofs::ReadBack::message_back, crate::proofs::ReadBack::producers_apart))]
pub fn numbers_are_read_back()
    ensures shard { AreReadBack plain_numbers }
    ensures message { (m : frame.Message) → m.flags ≤ 2 →
        plain_numbers.message_of (coded told_by_numbers m) ≡ m }
    ensures producer { TellsProducers told_by_numbers }
{}
