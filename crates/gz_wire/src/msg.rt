//! A message, by its kind.
ghost use Rattle.std.specs.Prelude.{◌≡◌, IfOk};

use crate::{Compares, Names, copies};
use gz_label::{Blob, Changes, Entry, Image, LabelSet, Name, NoMemory, Writes};

/// A message between two nodes. Each answer has the number `req` of its request, which counts from 1 at the asking
/// node. Offsets count bytes of a journal; epochs are revisions of the key space at which a route was made.
#[derive(Debug, Drop)]
pub enum Msg {
    /// To the key space: make these writes if each compared key has the revision that it is compared with.
    KsTxn {
        req: u64,
        compares: Compares,
        writes: Writes,
    },
    /// The transaction was made, and its change has this revision.
    KsTxnOk {
        req: u64,
        revision: u64,
    },
    /// The transaction was refused. The status is 1 where a compare failed, 2 where it isn't allowed, 3 where the
    /// keys have come to their end; the key and the revision say of which key, and at which revision it is.
    KsTxnNo {
        req: u64,
        status: u64,
        key: Name,
        revision: u64,
    },
    /// To the key space: tell the changes after this revision.
    KsSince {
        req: u64,
        after: u64,
    },
    /// The changes that were asked for, and the revision of the newest one.
    KsSinceDone {
        req: u64,
        head: u64,
        changes: Changes,
    },
    /// A change was made.
    KsChange {
        revision: u64,
        writes: Writes,
    },
    /// To the key space: put the key with a lease of the sender's.
    KsGrant {
        req: u64,
        key: Name,
        value: Blob,
    },
    /// The key was put with this lease.
    KsGranted {
        req: u64,
        lease: u64,
    },
    /// To a member of a journal's route: take nothing of lesser epochs any more.
    Promise {
        journal: Name,
        epoch: u64,
    },
    /// The promise: the epoch that the sender adopted last, and what it keeps of the journal.
    Promised {
        journal: Name,
        epoch: u64,
        adopted: u64,
        image: Image,
    },
    /// To a member: keep this image, and take entries of this epoch.
    Adopt {
        journal: Name,
        epoch: u64,
        image: Image,
    },
    /// The sender keeps the image, up to this end.
    Adopted {
        journal: Name,
        epoch: u64,
        end: u64,
    },
    /// A message of this epoch was refused. The code is 1 where a greater epoch was promised (the value), 2 where
    /// another one was adopted (the value), 3 where the entry isn't at the end (the value).
    Refuse {
        journal: Name,
        epoch: u64,
        code: u64,
        value: u64,
    },
    /// To a member: an entry at this offset, and the offset up to which all members hold the journal.
    Replicate {
        journal: Name,
        epoch: u64,
        offset: u64,
        entry: Entry,
        head: u64,
    },
    /// The sender keeps the journal up to this end.
    Held {
        journal: Name,
        epoch: u64,
        end: u64,
    },
    /// To a member: all members hold the journal up to `head`, and the store has it up to `begin`.
    Head {
        journal: Name,
        epoch: u64,
        head: u64,
        begin: u64,
    },
    /// To the first member of a route: append the content. With an epoch only in the route of that epoch, with an
    /// offset only there; the registers have to match the selector, and `take` and `add` change them.
    Append {
        req: u64,
        journal: Name,
        epoch: Option<u64>,
        offset: Option<u64>,
        selector: Name,
        take: LabelSet,
        add: LabelSet,
        content: Blob,
    },
    /// What became of an append. Status 0: it stands from `begin` to `end`. Otherwise the status says why it was
    /// refused; the value, the labels and the route go with it.
    AppendDone {
        req: u64,
        journal: Name,
        status: u64,
        begin: u64,
        end: u64,
        value: u64,
        labels: LabelSet,
        route: Names,
    },
    /// To a member of a route: read from this offset on.
    Read {
        req: u64,
        journal: Name,
        offset: u64,
    },
    /// What became of a read. Status 0: the content at the offset. Otherwise the status says why there is none.
    ReadDone {
        req: u64,
        journal: Name,
        status: u64,
        offset: u64,
        content: Blob,
        head: u64,
        route: Names,
    },
    /// To the store: keep the content, which stands from `begin` to `end`.
    StorePut {
        req: u64,
        journal: Name,
        begin: u64,
        end: u64,
        content: Blob,
    },
    /// The store keeps what stands from `begin` to `end`.
    StoreDone {
        req: u64,
        journal: Name,
        begin: u64,
        end: u64,
    },
    /// To the store: read from this offset on.
    StoreGet {
        req: u64,
        journal: Name,
        offset: u64,
    },
    /// Status 0: the content at the offset. Status 1: the store has none.
    StoreGot {
        req: u64,
        journal: Name,
        status: u64,
        offset: u64,
        content: Blob,
    },
    /// To the store: tell the names of the journal's fragments.
    StoreList {
        req: u64,
        journal: Name,
    },
    /// The names of the journal's fragments.
    StoreNames {
        req: u64,
        journal: Name,
        names: Names,
    },
}

/// A message, and the node that it goes to.
#[derive(Debug, Drop)]
pub struct Send {
    pub to: Name,
    pub msg: Msg,
}

impl Send {
    /// An equal value.
    pub fn copy(&self) -> Result<Send, NoMemory>
        ensures { IfOk result (λ send. send ≡ self.now) }
    {
        Ok(Send {
            to: self.to.copy()?,
            msg: self.msg.copy()?,
        })
    }
}

impl Msg {
    /// An equal value.
    pub fn copy(&self) -> Result<Msg, NoMemory>
        ensures { IfOk result (λ msg. msg ≡ self.now) }
    {
        match self {
            Msg::KsTxn {
                req,
                compares,
                writes,
            } => copies::copy_ks_txn(*req, compares, writes),
            Msg::KsTxnOk { req, revision } => Ok(Msg::KsTxnOk {
                req: *req,
                revision: *revision,
            }),
            Msg::KsTxnNo {
                req,
                status,
                key,
                revision,
            } => copies::copy_ks_txn_no(*req, *status, key, *revision),
            Msg::KsSince { req, after } => Ok(Msg::KsSince {
                req: *req,
                after: *after,
            }),
            Msg::KsSinceDone { req, head, changes } => copies::copy_ks_since_done(
                *req, *head, changes,
            ),
            Msg::KsChange { revision, writes } => copies::copy_ks_change(*revision, writes),
            Msg::KsGrant { req, key, value } => copies::copy_ks_grant(*req, key, value),
            Msg::KsGranted { req, lease } => Ok(Msg::KsGranted {
                req: *req,
                lease: *lease,
            }),
            Msg::Promise { journal, epoch } => copies::copy_promise(journal, *epoch),
            Msg::Promised {
                journal,
                epoch,
                adopted,
                image,
            } => copies::copy_promised(journal, *epoch, *adopted, image),
            Msg::Adopt {
                journal,
                epoch,
                image,
            } => copies::copy_adopt(journal, *epoch, image),
            Msg::Adopted {
                journal,
                epoch,
                end,
            } => copies::copy_adopted(journal, *epoch, *end),
            Msg::Refuse {
                journal,
                epoch,
                code,
                value,
            } => copies::copy_refuse(journal, *epoch, *code, *value),
            Msg::Replicate {
                journal,
                epoch,
                offset,
                entry,
                head,
            } => copies::copy_replicate(journal, *epoch, *offset, entry, *head),
            Msg::Held {
                journal,
                epoch,
                end,
            } => copies::copy_held(journal, *epoch, *end),
            Msg::Head {
                journal,
                epoch,
                head,
                begin,
            } => copies::copy_head(journal, *epoch, *head, *begin),
            Msg::Append {
                req,
                journal,
                epoch,
                offset,
                selector,
                take,
                add,
                content,
            } => copies::copy_append(*req, journal, *epoch, *offset, selector, take, add, content),
            Msg::AppendDone {
                req,
                journal,
                status,
                begin,
                end,
                value,
                labels,
                route,
            } => copies::copy_append_done(
                *req, journal, *status, *begin, *end, *value, labels, route,
            ),
            Msg::Read {
                req,
                journal,
                offset,
            } => copies::copy_read(*req, journal, *offset),
            Msg::ReadDone {
                req,
                journal,
                status,
                offset,
                content,
                head,
                route,
            } => copies::copy_read_done(*req, journal, *status, *offset, content, *head, route),
            Msg::StorePut {
                req,
                journal,
                begin,
                end,
                content,
            } => copies::copy_store_put(*req, journal, *begin, *end, content),
            Msg::StoreDone {
                req,
                journal,
                begin,
                end,
            } => copies::copy_store_done(*req, journal, *begin, *end),
            Msg::StoreGet {
                req,
                journal,
                offset,
            } => copies::copy_store_get(*req, journal, *offset),
            Msg::StoreGot {
                req,
                journal,
                status,
                offset,
                content,
            } => copies::copy_store_got(*req, journal, *status, *offset, content),
            Msg::StoreList { req, journal } => copies::copy_store_list(*req, journal),
            Msg::StoreNames {
                req,
                journal,
                names,
            } => copies::copy_store_names(*req, journal, names),
        }
    }
}
