//! Messages to one node, and to several.
ghost use Rattle.std.specs.Prelude.{◌≡◌, ◌++◌, ◌∷◌, [], take, IfOk, OnOk};
ghost use Rattle.gz_wire.specs.declared.msg.Msg.TheVariants as kinds;
ghost use Rattle.gz_replica.specs.Member.{send, to_each};

use gz_label::{Entry, Name, NoMemory};
use gz_spool::Spool;
use gz_wire::{Msg, Send, Sends};
use std::alloc::Global;

/// What a rule sends, and how many requests of the member's own it numbered.
#[derive(Debug, Drop)]
pub struct Sent {
    pub sends: Sends,
    pub numbered: u64,
}

impl Sent {
    /// Nothing is sent. It takes no memory.
    pub fn nothing(alloc: Global) -> Sent
        ensures sends { result.sends ≡ [] }
        ensures numbered { result.numbered ≡ 0 }
    {
        Sent {
            sends: Sends::new(alloc),
            numbered: 0,
        }
    }
}

/// Puts the message to one node at the end.
pub fn push_one(sends: &mut Sends, to: &Name, msg: Msg) -> Result<(), NoMemory>
    ensures { OnOk result (sends.new ≡ sends.old ++ send to.now msg ∷ []) }
{
    let to = to.copy()?;
    sends.push(Send { to, msg })?;
    Ok(())
}

/// The message to one node.
pub fn send_one(alloc: Global, to: &Name, msg: Msg) -> Result<Sends, NoMemory>
    ensures { IfOk result (λ sends. sends ≡ send to.now msg ∷ []) }
{
    let mut sends = Sends::new(alloc);
    push_one(&mut sends, to, msg)?;
    Ok(sends)
}

/// Puts the message to each of these nodes at the end, in their order.
#[tactic(auto, using(crate::proofs::Sending::each_behind))]
pub fn push_each(sends: &mut Sends, msg: &Msg, nodes: &[Name]) -> Result<(), NoMemory>
    ensures { OnOk result (sends.new ≡ sends.old ++ to_each msg.now nodes.now) }
{
    for node in nodes {
        let to = node.copy()?;
        let copied = msg.copy()?;
        sends.push(Send { to, msg: copied })?;
    }
    Ok(())
}

/// Puts the head and the begin to each of these nodes at the end.
pub fn push_heads(
    sends: &mut Sends,
    journal: &Name,
    epoch: u64,
    head: u64,
    begin: u64,
    nodes: &[Name],
) -> Result<(), NoMemory>
    ensures { OnOk result
        (sends.new ≡ sends.old ++ to_each (kinds.Head journal.now epoch head begin) nodes.now) }
{
    let journal = journal.copy()?;
    let msg = Msg::Head {
        journal,
        epoch,
        head,
        begin,
    };
    push_each(sends, &msg, nodes)?;
    Ok(())
}

fn replicate(
    journal: &Name,
    epoch: u64,
    offset: u64,
    entry: &Entry,
    head: u64,
) -> Result<Msg, NoMemory>
    ensures { IfOk result (λ msg. msg ≡ kinds.Replicate journal.now epoch offset entry.now head) }
{
    Ok(Msg::Replicate {
        journal: journal.copy()?,
        epoch,
        offset,
        entry: entry.copy()?,
        head,
    })
}

/// An entry of this epoch, which begins at the offset, with the head.
pub fn push_replicate(
    sends: &mut Sends,
    to: &Name,
    journal: &Name,
    epoch: u64,
    offset: u64,
    entry: &Entry,
    head: u64,
) -> Result<(), NoMemory>
    ensures { OnOk result (sends.new
        ≡ sends.old ++ send to.now (kinds.Replicate journal.now epoch offset entry.now head) ∷ []) }
{
    let to = to.copy()?;
    let msg = replicate(journal, epoch, offset, entry, head)?;
    sends.push(Send { to, msg })?;
    Ok(())
}

/// The same to each of the nodes.
#[tactic(auto, using(crate::proofs::Sending::each_step))]
pub fn replicate_each(
    alloc: Global,
    journal: &Name,
    epoch: u64,
    offset: u64,
    entry: &Entry,
    head: u64,
    nodes: &[Name],
) -> Result<Sends, NoMemory>
    ensures { IfOk result (λ sends. sends
        ≡ to_each (kinds.Replicate journal.now epoch offset entry.now head) nodes.now) }
{
    let mut sends = Sends::new(alloc);
    for node in nodes {
        push_replicate(&mut sends, node, journal, epoch, offset, entry, head)?;
    }
    Ok(sends)
}

fn adopt(journal: &Name, epoch: u64, spool: &Spool) -> Result<Msg, NoMemory>
    ensures { IfOk result (λ msg. msg ≡ kinds.Adopt journal.now epoch spool.now.image) }
{
    Ok(Msg::Adopt {
        journal: journal.copy()?,
        epoch,
        image: spool.image()?,
    })
}

/// The spool's image, for this epoch, to each of the nodes.
#[tactic(auto, using(crate::proofs::Sending::each_step))]
pub fn adopt_each(
    alloc: Global,
    journal: &Name,
    epoch: u64,
    spool: &Spool,
    nodes: &[Name],
) -> Result<Sends, NoMemory>
    ensures { IfOk result
        (λ sends. sends ≡ to_each (kinds.Adopt journal.now epoch spool.now.image) nodes.now) }
{
    let mut sends = Sends::new(alloc);
    for node in nodes {
        let to = node.copy()?;
        let msg = adopt(journal, epoch, spool)?;
        sends.push(Send { to, msg })?;
    }
    Ok(sends)
}
