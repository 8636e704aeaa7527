//! What a trace prints of a message: a subject and a number.
ghost use Rattle.std.specs.Prelude.{◌≡◌};
ghost use Rattle.gz_fragment.specs.Names.{name_in};
ghost use Rattle.gz_wire.specs.Trace.{first_key, subject_of, end_of, greatest_end, number_of};

use crate::Msg;
use gz_fragment::FragmentName;
use gz_label::{Name, Writes};

/// The text that stands for no subject.
const NO_SUBJECT: &str = "-";

/// The first written key, or `-` where there is none.
fn first_key(writes: &Writes) -> &str
    ensures { result.now ≡ first_key writes.now }
{
    match writes.as_slice() {
        [] => NO_SUBJECT,
        [first, ..] => first.key.as_str(),
    }
}

/// The end of a fragment's name, and 0 for a text that is none.
fn end_of(name: &Name) -> u64
    ensures { result ≡ end_of (name_in name.now) }
{
    match FragmentName::read(name.as_slice()) {
        Some(name) => name.end(),
        None => 0,
    }
}

/// The greatest end that one of the names says, or 0.
#[tactic(auto, unfolding(crate::specs::Trace::greatest_end))]
fn greatest_end(names: &[Name]) -> u64
    ensures { result ≡ greatest_end names.now }
{
    let mut greatest = 0;
    for name in names {
        greatest = greatest.max(end_of(name));
    }
    greatest
}

impl Msg {
    /// The journal that the message speaks of, or the key, or `-` where it speaks of neither. It takes no memory.
    pub fn subject(&self) -> &str
        ensures { result.now ≡ subject_of self.now }
    {
        match self {
            Msg::KsTxn { writes, .. } => first_key(writes),
            Msg::KsTxnOk { .. } => NO_SUBJECT,
            Msg::KsTxnNo { key, .. } => key.as_str(),
            Msg::KsSince { .. } => NO_SUBJECT,
            Msg::KsSinceDone { .. } => NO_SUBJECT,
            Msg::KsChange { writes, .. } => first_key(writes),
            Msg::KsGrant { key, .. } => key.as_str(),
            Msg::KsGranted { .. } => NO_SUBJECT,
            Msg::Promise { journal, .. } => journal.as_str(),
            Msg::Promised { journal, .. } => journal.as_str(),
            Msg::Adopt { journal, .. } => journal.as_str(),
            Msg::Adopted { journal, .. } => journal.as_str(),
            Msg::Refuse { journal, .. } => journal.as_str(),
            Msg::Replicate { journal, .. } => journal.as_str(),
            Msg::Held { journal, .. } => journal.as_str(),
            Msg::Head { journal, .. } => journal.as_str(),
            Msg::Append { journal, .. } => journal.as_str(),
            Msg::AppendDone { journal, .. } => journal.as_str(),
            Msg::Read { journal, .. } => journal.as_str(),
            Msg::ReadDone { journal, .. } => journal.as_str(),
            Msg::StorePut { journal, .. } => journal.as_str(),
            Msg::StoreDone { journal, .. } => journal.as_str(),
            Msg::StoreGet { journal, .. } => journal.as_str(),
            Msg::StoreGot { journal, .. } => journal.as_str(),
            Msg::StoreList { journal, .. } => journal.as_str(),
            Msg::StoreNames { journal, .. } => journal.as_str(),
        }
    }

    /// The number that tells most of the message, as a trace prints it: an offset, an epoch, a revision or the like, of
    /// the field that the table of messages says. Of names of fragments it is the greatest end, and 0 where there is
    /// none. It takes no memory.
    pub fn number(&self) -> u64
        ensures { result ≡ number_of self.now }
    {
        match self {
            Msg::KsTxn { req, .. } => *req,
            Msg::KsTxnOk { revision, .. } => *revision,
            Msg::KsTxnNo { revision, .. } => *revision,
            Msg::KsSince { after, .. } => *after,
            Msg::KsSinceDone { head, .. } => *head,
            Msg::KsChange { revision, .. } => *revision,
            Msg::KsGrant { req, .. } => *req,
            Msg::KsGranted { lease, .. } => *lease,
            Msg::Promise { epoch, .. } => *epoch,
            Msg::Promised { adopted, .. } => *adopted,
            Msg::Adopt { epoch, .. } => *epoch,
            Msg::Adopted { end, .. } => *end,
            Msg::Refuse { code, .. } => *code,
            Msg::Replicate { offset, .. } => *offset,
            Msg::Held { end, .. } => *end,
            Msg::Head { head, .. } => *head,
            Msg::Append { req, .. } => *req,
            Msg::AppendDone { end, .. } => *end,
            Msg::Read { offset, .. } => *offset,
            Msg::ReadDone { offset, .. } => *offset,
            Msg::StorePut { end, .. } => *end,
            Msg::StoreDone { end, .. } => *end,
            Msg::StoreGet { offset, .. } => *offset,
            Msg::StoreGot { offset, .. } => *offset,
            Msg::StoreList { req, .. } => *req,
            Msg::StoreNames { names, .. } => greatest_end(names.as_slice()),
        }
    }
}
