//! What an event of a cluster comes to in the reduced journal: the sentences of `specs/Events`.
ghost use Rattle.gz_carried.specs.Events.{Asks, InEachRun, TakesChanges, TakesClients, TakesMessages};
ghost use Rattle.gz_carried.specs.Events.{Applies, DrawsAuthors, Expires, TakesSyncs};
ghost use Rattle.gz_carried.specs.Events.{Converges, Crashes};

/// Whatever members send one another is carried when it is taken, of this journal and of another one, with the whole
/// cluster: the other members, the keys, all that was sent, and the acknowledged list. So is an append or a read, refused,
/// judged or put, and what touches no member of a
/// journal: a message is lost, a client asks or gives up, a member asks for changes of the keys, a primary is told to put.
pub fn letters_are_carried()
    ensures taken { InEachRun TakesMessages }
    ensures clients { InEachRun TakesClients }
    ensures asked { InEachRun Asks }
{}

/// So is what the key space does by itself or is asked for by a primary: specifications, author keys and the end of a
/// member's lease leave this journal's keys, and a sync is the reduced key space's.
pub fn key_space_is_carried()
    ensures syncs { InEachRun TakesSyncs }
    ensures applies { InEachRun Applies }
    ensures authors { InEachRun DrawsAuthors }
    ensures expire { InEachRun Expires }
{}

/// A crash and a whole converge are carried where the cluster hands the journal over behind them: then the reduced world
/// does. That bytes which are stored are marks which are stored has to be known there.
pub fn losses_are_carried()
    ensures crash { InEachRun Crashes }
    ensures converge { InEachRun Converges }
{}

/// A broker that takes changes of the keys opens by what its mirror had then, as the reduced route of that epoch did.
pub fn changes_are_carried()
    ensures { InEachRun TakesChanges }
{}
