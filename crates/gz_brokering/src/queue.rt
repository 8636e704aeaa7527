//! Answers of appends that wait for the head.
ghost use Rattle.std.specs.Prelude.{◌≡◌, ◌<◌, ◌≤◌, ◌+◌, ◌-◌, ◌++◌, ◌∷◌, [], length, slice_index_or, true, false, IfOk, OnOk, OnErr};
ghost use Rattle.gz_broker.specs.Brokers.{Queued as Kept};
ghost use Rattle.gz_broker.specs.Brokers.{reached, waiting};
ghost use Rattle.gz_broker.specs.Closing.{closings_of};
ghost use Rattle.gz_brokering.specs.Queues.{is_ascending_from, is_first_reached};

use crate::answer::{Queued, closed_done, done};
use gz_label::{Name, NoMemory};
use gz_wire::Sends;
use std::alloc::Global;
use std::collections::VecDeque;
use std::marker::Model;
use std::mem;

/// Answers that wait, in the order in which they came.
#[derive(Debug, Drop)]
pub struct Queue {
    items: VecDeque<Queued>,
    // No reach is below the one before it, so those that the head reaches stand first.
    is_ascending: bool,
}

impl Model for Queue {
    ghost use Rattle.std.specs.Prelude.{◌≡◌, List, true};
    ghost use Rattle.gz_broker.specs.Brokers.{Queued};
    ghost use Rattle.gz_brokering.specs.Queues.{is_ascending_from};

    ghost Value = { List Queued };

    ghost view = { λ a. a.items.items };

    ghost invariant = { λ a. a.is_ascending ≡ true → is_ascending_from 0 a.items.items ≡ true };
}

/// Whether the head is at the reach of the first.
#[tactic(auto, using(crate::proofs::Waiting::first_read))]
fn is_reached(items: &VecDeque<Queued>, head: u64) -> bool
    ensures { result ≡ is_first_reached head items.now.items }
{
    match items.front() {
        None => false,
        Some(first) => first.reach <= head,
    }
}

/// Sends the first.
#[tactic(auto, using(crate::proofs::Waiting::next_sent, crate::proofs::Waiting::next_waits, crate::proofs::Waiting::next_ascends))]
fn send_next(
    items: &mut VecDeque<Queued>,
    journal: &Name,
    head: u64,
    sends: &mut Sends,
) -> Result<(), NoMemory>
    requires { is_first_reached head items.old.items ≡ true }
    ensures sends { OnOk result (sends.new ++ reached journal.now head items.new.items
        ≡ sends.old ++ reached journal.now head items.old.items) }
    ensures waiting { OnOk result
        (waiting head items.new.items ≡ waiting head items.old.items) }
    ensures shorter { OnOk result (length items.new.items + 1 ≡ length items.old.items) }
    ensures ascending { is_ascending_from 0 items.old.items ≡ true →
        is_ascending_from 0 items.new.items ≡ true }
{
    let Some(queued) = items.pop_front() else {
        return Ok(());
    };
    let sent = done(journal, queued)?;
    sends.push(sent)?;
    Ok(())
}

/// Sends the first ones, as long as the head is at their reach.
fn send_first(
    items: &mut VecDeque<Queued>,
    journal: &Name,
    head: u64,
    sends: &mut Sends,
) -> Result<(), NoMemory>
    ensures sends { OnOk result (sends.new ++ reached journal.now head items.new.items
        ≡ sends.old ++ reached journal.now head items.old.items) }
    ensures waiting { OnOk result
        (waiting head items.new.items ≡ waiting head items.old.items) }
    ensures first { OnOk result (is_first_reached head items.new.items ≡ false) }
    ensures ascending { is_ascending_from 0 items.old.items ≡ true →
        is_ascending_from 0 items.new.items ≡ true }
{
    'answers: while is_reached(items, head) {
        send_next(items, journal, head, sends)?;
    }
    Ok(())
}

/// Sends the first, or puts it behind those that wait.
#[tactic(auto, using(crate::proofs::Waiting::next_sent, crate::proofs::Waiting::next_waits, crate::proofs::Waiting::next_kept, crate::proofs::Waiting::next_unsent, crate::proofs::Waiting::first_reached))]
fn sift_next(
    items: &mut VecDeque<Queued>,
    left: &mut VecDeque<Queued>,
    journal: &Name,
    head: u64,
    sends: &mut Sends,
) -> Result<(), NoMemory>
    requires { 0 < length items.old.items }
    ensures sends { OnOk result (sends.new ++ reached journal.now head items.new.items
        ≡ sends.old ++ reached journal.now head items.old.items) }
    ensures left { OnOk result (left.new.items ++ waiting head items.new.items
        ≡ left.old.items ++ waiting head items.old.items) }
    ensures shorter { OnOk result (length items.new.items + 1 ≡ length items.old.items) }
{
    let Some(queued) = items.pop_front() else {
        return Ok(());
    };
    if queued.reach > head {
        left.push_back(queued)?;
        return Ok(());
    }
    let sent = done(journal, queued)?;
    sends.push(sent)?;
    Ok(())
}

/// Sends those whose reach the head is at, and gives the others.
fn sift(
    alloc: Global,
    items: VecDeque<Queued>,
    journal: &Name,
    head: u64,
    sends: &mut Sends,
) -> Result<VecDeque<Queued>, NoMemory>
    ensures left { IfOk result (λ left. left.items ≡ waiting head items.items) }
    ensures sends { OnOk result
        (sends.new ≡ sends.old ++ reached journal.now head items.items) }
{
    let mut items = items;
    let mut left = VecDeque::new(alloc);
    'answers: while items.len() > 0 {
        sift_next(&mut items, &mut left, journal, head, sends)?;
    }
    Ok(left)
}

/// Whether these are known to ascend, and none of them has a reach above this one.
fn stays_ascending(is_ascending: bool, items: &VecDeque<Queued>, reach: u64) -> bool
    ensures was { result ≡ true → is_ascending ≡ true }
    ensures last { result ≡ true → (d : Kept) → 0 < length items.now.items →
        (slice_index_or items.now.items (length items.now.items - 1) d).reach ≤ reach }
{
    if !is_ascending {
        return false;
    }
    match items.back() {
        None => true,
        Some(last) => last.reach <= reach,
    }
}

/// Sends the first as closed.
#[tactic(auto, using(crate::proofs::Waiting::next_closed))]
fn close_next(
    items: &mut VecDeque<Queued>,
    alloc: Global,
    journal: &Name,
    promised: u64,
    sends: &mut Sends,
) -> Result<(), NoMemory>
    requires { 0 < length items.old.items }
    ensures sends { OnOk result (sends.new ++ closings_of journal.now promised items.new.items
        ≡ sends.old ++ closings_of journal.now promised items.old.items) }
    ensures shorter { OnOk result (length items.new.items + 1 ≡ length items.old.items) }
{
    let Some(queued) = items.pop_front() else {
        return Ok(());
    };
    let sent = closed_done(alloc, journal, promised, queued)?;
    sends.push(sent)?;
    Ok(())
}

/// Sends each as closed, in order.
fn close_all(
    alloc: Global,
    items: VecDeque<Queued>,
    journal: &Name,
    promised: u64,
) -> Result<Sends, NoMemory>
    ensures { IfOk result
        (λ sends. sends ≡ closings_of journal.now promised items.items) }
{
    let mut items = items;
    let mut sends = Sends::new(alloc);
    'answers: while items.len() > 0 {
        close_next(&mut items, alloc, journal, promised, &mut sends)?;
    }
    Ok(sends)
}

impl Queue {
    /// No answer waits. It takes no memory.
    pub fn new(alloc: Global) -> Queue
        ensures { result ≡ [] }
    {
        Queue {
            items: VecDeque::new(alloc),
            is_ascending: true,
        }
    }

    /// One more waits. After NoMemory nothing has changed.
    #[tactic(auto, using(crate::proofs::Waiting::pushed_ascends))]
    pub fn push(&mut self, queued: Queued) -> Result<(), NoMemory>
        ensures ok { OnOk result (self.new ≡ self.old ++ queued ∷ []) }
        ensures err { OnErr result (self.new ≡ self.old) }
    {
        let stays = stays_ascending(self.is_ascending, &self.items, queued.reach);
        self.items.push_back(queued)?;
        self.is_ascending = stays;
        Ok(())
    }

    /// Those go out, in order, whose reach the head is at. It costs what goes out, where each that waits has a
    /// reach at or above the one before it.
    #[tactic(auto, using(crate::proofs::Waiting::all_wait, crate::proofs::Waiting::all_sent))]
    pub fn send_reached(
        &mut self,
        journal: &Name,
        head: u64,
        sends: &mut Sends,
    ) -> Result<(), NoMemory>
        ensures sends { OnOk result (sends.new ≡ sends.old ++ reached journal.now head self.old) }
        ensures queue { OnOk result (self.new ≡ waiting head self.old) }
    {
        send_first(&mut self.items, journal, head, sends)?;
        if self.is_ascending {
            return Ok(());
        }
        let alloc = *self.items.allocator();
        let items = mem::replace(&mut self.items, VecDeque::new(alloc));
        self.items = sift(alloc, items, journal, head, sends)?;
        Ok(())
    }

    /// All go out, in order, as closed by a promise of this epoch, and none waits.
    pub fn close(&mut self, journal: &Name, promised: u64) -> Result<Sends, NoMemory>
        ensures sends { IfOk result
            (λ sends. sends ≡ closings_of journal.now promised self.old) }
        ensures queue { self.new ≡ [] }
    {
        let alloc = *self.items.allocator();
        let items = mem::replace(&mut self.items, VecDeque::new(alloc));
        self.is_ascending = true;
        let sends = close_all(alloc, items, journal, promised)?;
        Ok(sends)
    }
}
