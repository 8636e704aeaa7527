//! What is told of events.

use gz_client::Answer;
use gz_label::Name;

/// Why an event is refused.
#[derive(Clone, Copy, Debug, PartialEq, Eq)]
pub enum Reason {
    /// The name is or was a member's, or is kept for the program's own; for a new member also where a client of
    /// this name has asked.
    NameUsed,
    /// There is no such journal.
    NoRoute,
    /// The specifications can't be joined to those that are there.
    BadSpecs,
    /// 64 members have joined so far.
    MembersFull,
    /// There is no live member of this name.
    NoMember,
    /// The key space has had its last revision.
    KeysEnd,
}

/// What was told of an event. Lines are those of the scenario, from 1.
#[derive(Debug, Drop)]
pub enum Told {
    /// A client got an answer.
    Replied {
        line: u64,
        client: Name,
        answer: Answer,
    },
    /// The event was refused, and nothing else happened.
    Refused {
        line: u64,
        reason: Reason,
    },
}

/// What became of an event.
#[derive(Clone, Copy, Debug, PartialEq, Eq)]
pub enum Applied {
    /// It was done.
    Done,
    /// It was refused, which is told and changes nothing else.
    Refused(Reason),
}
