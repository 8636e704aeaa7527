//! Kinds of messages and their names.
ghost use Rattle.std.specs.Prelude.{◌≡◌, Some};
ghost use Rattle.gz_wire.specs.Kinds.{name_of, first_named, kind_named, kind_of};

use crate::Msg;

/// Every kind, in the order of the tags.
const EVERY: [Kind; 26] = [
    Kind::KsTxn,
    Kind::KsTxnOk,
    Kind::KsTxnNo,
    Kind::KsSince,
    Kind::KsSinceDone,
    Kind::KsChange,
    Kind::KsGrant,
    Kind::KsGranted,
    Kind::Promise,
    Kind::Promised,
    Kind::Adopt,
    Kind::Adopted,
    Kind::Refuse,
    Kind::Replicate,
    Kind::Held,
    Kind::Head,
    Kind::Append,
    Kind::AppendDone,
    Kind::Read,
    Kind::ReadDone,
    Kind::StorePut,
    Kind::StoreDone,
    Kind::StoreGet,
    Kind::StoreGot,
    Kind::StoreList,
    Kind::StoreNames,
];

/// The kind of a message.
#[derive(Clone, Copy, Debug, PartialEq, Eq)]
pub enum Kind {
    KsTxn,
    KsTxnOk,
    KsTxnNo,
    KsSince,
    KsSinceDone,
    KsChange,
    KsGrant,
    KsGranted,
    Promise,
    Promised,
    Adopt,
    Adopted,
    Refuse,
    Replicate,
    Held,
    Head,
    Append,
    AppendDone,
    Read,
    ReadDone,
    StorePut,
    StoreDone,
    StoreGet,
    StoreGot,
    StoreList,
    StoreNames,
}

impl Kind {
    /// The kind's name, as a trace prints it. No other kind has it.
    #[tactic(auto, unfolding(crate::specs::Kinds::name_of, crate::specs::Kinds::kind_named))]
    pub fn name(self) -> &'static str
        ensures text { result.now ≡ name_of self }
        ensures alone { kind_named result.now ≡ Some self }
    {
        match self {
            Kind::KsTxn => "KsTxn",
            Kind::KsTxnOk => "KsTxnOk",
            Kind::KsTxnNo => "KsTxnNo",
            Kind::KsSince => "KsSince",
            Kind::KsSinceDone => "KsSinceDone",
            Kind::KsChange => "KsChange",
            Kind::KsGrant => "KsGrant",
            Kind::KsGranted => "KsGranted",
            Kind::Promise => "Promise",
            Kind::Promised => "Promised",
            Kind::Adopt => "Adopt",
            Kind::Adopted => "Adopted",
            Kind::Refuse => "Refuse",
            Kind::Replicate => "Replicate",
            Kind::Held => "Held",
            Kind::Head => "Head",
            Kind::Append => "Append",
            Kind::AppendDone => "AppendDone",
            Kind::Read => "Read",
            Kind::ReadDone => "ReadDone",
            Kind::StorePut => "StorePut",
            Kind::StoreDone => "StoreDone",
            Kind::StoreGet => "StoreGet",
            Kind::StoreGot => "StoreGot",
            Kind::StoreList => "StoreList",
            Kind::StoreNames => "StoreNames",
        }
    }

    /// The kind of this name, or None where no kind has it. It takes no memory.
    #[tactic(auto, unfolding(crate::specs::Kinds::kind_named))]
    pub fn named(name: &str) -> Option<Kind>
        ensures { result ≡ kind_named name.now }
    {
        first_named(name, &EVERY)
    }
}

/// The first of these kinds that has the name.
fn first_named(name: &str, kinds: &[Kind]) -> Option<Kind>
    ensures { result ≡ first_named name.now kinds.now }
{
    for kind in kinds {
        if name == kind.name() {
            return Some(*kind);
        }
    }
    None
}

impl Msg {
    /// The message's kind.
    pub fn kind(&self) -> Kind
        ensures { result ≡ kind_of self.now }
    {
        match self {
            Msg::KsTxn { .. } => Kind::KsTxn,
            Msg::KsTxnOk { .. } => Kind::KsTxnOk,
            Msg::KsTxnNo { .. } => Kind::KsTxnNo,
            Msg::KsSince { .. } => Kind::KsSince,
            Msg::KsSinceDone { .. } => Kind::KsSinceDone,
            Msg::KsChange { .. } => Kind::KsChange,
            Msg::KsGrant { .. } => Kind::KsGrant,
            Msg::KsGranted { .. } => Kind::KsGranted,
            Msg::Promise { .. } => Kind::Promise,
            Msg::Promised { .. } => Kind::Promised,
            Msg::Adopt { .. } => Kind::Adopt,
            Msg::Adopted { .. } => Kind::Adopted,
            Msg::Refuse { .. } => Kind::Refuse,
            Msg::Replicate { .. } => Kind::Replicate,
            Msg::Held { .. } => Kind::Held,
            Msg::Head { .. } => Kind::Head,
            Msg::Append { .. } => Kind::Append,
            Msg::AppendDone { .. } => Kind::AppendDone,
            Msg::Read { .. } => Kind::Read,
            Msg::ReadDone { .. } => Kind::ReadDone,
            Msg::StorePut { .. } => Kind::StorePut,
            Msg::StoreDone { .. } => Kind::StoreDone,
            Msg::StoreGet { .. } => Kind::StoreGet,
            Msg::StoreGot { .. } => Kind::StoreGot,
            Msg::StoreList { .. } => Kind::StoreList,
            Msg::StoreNames { .. } => Kind::StoreNames,
        }
    }
}
