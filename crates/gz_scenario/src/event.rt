//! The events of a scenario.
ghost use Rattle.std.specs.Prelude.{◌≡◌};

use gz_app::Text;
use gz_label::Name;
use gz_spec::{MemberSpec, Specs};
use std::marker::Model;

/// What part of a transaction a message is.
#[derive(Clone, Copy, Debug, PartialEq, Eq)]
pub enum Flag {
    /// It stands by itself.
    Outside,
    /// It waits for an acknowledgement of its producer.
    Continue,
    /// It acknowledges those before it.
    Ack,
}

/// A message before it has a producer. Its key has at most 256 bytes and its value at most 4,096.
#[derive(Debug, Drop)]
pub struct Draft {
    pub flag: Flag,
    pub clock: u64,
    pub key: Text,
    pub value: Text,
}

/// The messages of a publish, which a contract sees as their list.
#[derive(Debug, Drop)]
pub struct Drafts {
    drafts: Vec<Draft>,
}

impl Model for Drafts {
    ghost use Rattle.std.specs.Prelude.{List};
    ghost use Rattle.gz_scenario.specs.declared.event.Draft.{Draft};

    ghost Value = { List Draft };

    ghost view = { λ a. a.drafts.items };
}

impl Drafts {
    /// The same messages. It takes no memory.
    pub fn of(drafts: Vec<Draft>) -> Drafts
        ensures { result ≡ drafts.items }
    {
        Drafts { drafts }
    }

    /// Gives the messages back as a vector. It takes no memory.
    pub fn into_vec(self) -> Vec<Draft>
        ensures { result.items ≡ self }
    {
        self.drafts
    }

    /// The messages. It takes no memory.
    pub fn as_slice(&self) -> &[Draft]
        ensures { result.now ≡ self.now }
    {
        self.drafts.as_slice()
    }
}

/// A client's append of messages to a journal.
#[derive(Debug, Drop)]
pub struct Publish {
    /// 1 to 32 letters, digits, `_` or `-`.
    pub client: Name,
    /// Segments of letters, digits, `_`, `.` and `-` with a `/` between each two, of at most 255 bytes
    /// in all.
    pub journal: Name,
    /// At least one.
    pub messages: Drafts,
    /// The number of the client's producer, below 2 to the 40.
    pub producer: u64,
}

/// What a member of the cluster is.
#[derive(Clone, Copy, Debug, PartialEq, Eq)]
pub enum MemberKind {
    /// It serves journals.
    Broker,
    /// It runs shards.
    Consumer,
}

/// A member that joins the cluster. Its id may be a reserved one.
#[derive(Debug, Drop)]
pub struct Join {
    pub kind: MemberKind,
    pub member: MemberSpec,
}

/// What happens next.
#[derive(Debug, Drop)]
pub enum Event {
    /// The scenario begins with these specifications.
    Specs(Specs),
    /// A client publishes messages.
    Publish(Publish),
    /// Everything that is due happens.
    Settle,
    /// Routes and lists of consumers move towards what is placed.
    Converge,
    /// These journals and shards are added, each in the place of the one of its name where there is one. The
    /// lists of members are empty.
    Apply(Specs),
    /// A member joins.
    Join(Join),
    /// The lease of the member of this id ends.
    Expire(Name),
}
