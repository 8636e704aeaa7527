//! What a broker's step comes to in the reduced journal: the sentences of `specs/Steps`.
ghost use Rattle.gz_steps.specs.Steps.{InEachRun, TakesAppends, TakesMessages};
ghost use Rattle.gz_steps.specs.Steps.{IsRefused, Opens, TakesTheStoresEnd};
ghost use Rattle.gz_steps.specs.Steps.{SendsAgain, Trims};

/// Whatever members send one another is carried, of this journal and of another one: the broker that takes it is seen in a
/// later world of the reduced journal, to which events lead that end no handover.
pub fn messages_are_carried()
    ensures { InEachRun TakesMessages }
{}

/// So is an append, whether it is refused, judged or put: it is judged the same in both.
pub fn appends_are_carried()
    ensures { InEachRun TakesAppends }
{}

/// So are the answers that an opening waits for: the sync key is written, or it isn't, and the store tells its end.
pub fn answers_are_carried()
    ensures opens { InEachRun Opens }
    ensures refused { InEachRun IsRefused }
    ensures told { InEachRun TakesTheStoresEnd }
{}

/// And what a primary tells or sends again: behind a put that the store has, and by command. By command each member has to
/// be known to hold what the head covers.
pub fn sending_is_carried()
    ensures trims { InEachRun Trims }
    ensures again { InEachRun SendsAgain }
{}
