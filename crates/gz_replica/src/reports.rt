//! What members promised with, and which of them holds most.
ghost use Rattle.std.specs.Prelude.{◌≡◌, ◌==◌, ◌&&◌, ◌||◌, Some, nat_lt, if◌then◌else◌, IfOk};
ghost use Rattle.std.specs.Option.{option_copied};
ghost use Rattle.gz_spool.specs.Spools.{spool_end};
ghost use Rattle.gz_replica.specs.Slots.{emptied, fill, full, missing, slots_for, value_at};
ghost use Rattle.gz_replica.specs.Opening.{best, better, image_taken, report_chosen};

use crate::{Choice, StoreEnd, slots};
use gz_label::{Name, NoMemory};
use gz_spool::Spool;
use gz_wire::Names;
use std::alloc::Global;
use std::marker::Model;

/// What a member promised with: the epoch that it adopted last, and its spool.
#[derive(Debug, Drop)]
pub struct Report {
    adopted: u64,
    spool: Spool,
}

impl Model for Report {
    ghost use Rattle.gz_replica.specs.Slots.{Report};

    ghost Value = { Report };

    ghost view = { λ a. record { adopted = a.adopted; image = a.spool.image } };
}

impl Report {
    /// What a member that adopted this epoch last promises with. It takes no memory.
    pub fn new(adopted: u64, spool: Spool) -> Report
        ensures { result ≡ record { adopted = adopted; image = spool.image } }
    {
        Report { adopted, spool }
    }

    /// The epoch that was adopted last. It takes no memory.
    pub fn adopted(&self) -> u64
        ensures { result ≡ self.now.adopted }
    {
        self.adopted
    }

    /// The spool. It takes no memory.
    pub fn spool(&self) -> &Spool
        ensures { result.now.image ≡ self.now.image }
    {
        &self.spool
    }

    /// Gives the spool. It takes no memory.
    pub fn into_spool(self) -> Spool
        ensures { result.image ≡ self.image }
    {
        self.spool
    }

    /// Whether it is greater than one of this epoch with this end: by the adopted epoch, then by the end. It
    /// takes no memory.
    pub fn beats(&self, adopted: u64, end: u64) -> bool
        ensures { result ≡ (nat_lt adopted self.now.adopted
            || (adopted == self.now.adopted && nat_lt end (spool_end self.now.image))) }
    {
        if adopted < self.adopted {
            return true;
        }
        if adopted != self.adopted {
            return false;
        }
        end < self.spool.end()
    }
}

/// The first promise of each other member, in route order.
#[derive(Debug, Drop)]
pub struct Reports {
    slots: Vec<(Name, Option<Report>)>,
}

impl Model for Reports {
    ghost use Rattle.gz_replica.specs.Slots.{Report, Slots};

    ghost Value = { Slots Report };

    ghost view = { λ a. a.slots.items };
}

#[tactic(auto, using(crate::proofs::Slotted::value_read, crate::proofs::Slotted::value_past))]
fn report_at(slots: &[(Name, Option<Report>)], place: usize) -> Option<&Report>
    ensures { option_copied result ≡ value_at slots.now place }
{
    if place >= slots.len() {
        return None;
    }
    slots[place].1.as_ref()
}

/// The place of the greater of two reports, the first of them at a tie. One that adopted less than `opened`
/// doesn't count.
fn better_of(slots: &[(Name, Option<Report>)], opened: u64, place: usize, other: usize) -> usize
    ensures { value_at slots.now result
        ≡ better opened (value_at slots.now place) (value_at slots.now other) }
{
    let Some(report) = report_at(slots, place) else {
        return other;
    };
    if report.adopted() < opened {
        return other;
    }
    match report_at(slots, other) {
        None => place,
        Some(rival) => {
            if rival.beats(report.adopted(), report.spool().end()) {
                return other;
            }
            place
        }
    }
}

/// The place of the best report, or that of none.
#[tactic(auto, using(crate::proofs::Choosing::best_none, crate::proofs::Choosing::best_back))]
fn best_of(slots: &[(Name, Option<Report>)], opened: u64) -> usize
    ensures { value_at slots.now result ≡ best opened slots.now }
{
    let mut best = slots.len();
    let mut place = slots.len();
    'places: while place > 0 {
        place -= 1;
        best = better_of(slots, opened, place, best);
    }
    best
}

/// Whether the own report counts, and the other one doesn't beat it.
fn is_own_best(adopted: u64, own: &Spool, opened: u64, other: Option<&Report>) -> bool
    ensures { better opened (Some (record { adopted = adopted; image = own.now.image }))
        (option_copied other.entry)
        ≡ (if result then Some (record { adopted = adopted; image = own.now.image })
        else option_copied other.entry) }
{
    if adopted < opened {
        return false;
    }
    match other {
        None => true,
        Some(report) => !report.beats(adopted, own.end()),
    }
}

#[tactic(auto, using(crate::proofs::Slotted::value_read, crate::proofs::Slotted::value_past))]
fn take_report(slots: Vec<(Name, Option<Report>)>, place: usize) -> Option<Report>
    ensures { result ≡ value_at slots.items place }
{
    let mut slots = slots;
    if place >= slots.len() {
        return None;
    }
    let (_, report) = slots.swap_remove(place);
    report
}

impl Reports {
    /// None of these has told.
    pub fn of(alloc: Global, names: &[Name]) -> Result<Reports, NoMemory>
        ensures { IfOk result (λ reports. reports ≡ slots_for names.now) }
    {
        let slots = slots::slots_for(alloc, names)?;
        Ok(Reports { slots })
    }

    /// The first report of a member stays. The answer is for `empty`, which undoes the call. It takes no
    /// memory.
    pub fn fill(&mut self, member: &Name, report: Report) -> usize
        ensures reports { self.new ≡ fill member.now report self.old }
        ensures undone { emptied self.new result ≡ self.old }
    {
        slots::fill(self.slots.as_mut_slice(), member, report)
    }

    /// The member at this place, if there is one, hasn't told. It takes no memory.
    pub fn empty(&mut self, place: usize)
        ensures { self.new ≡ emptied self.old place }
    {
        slots::empty(self.slots.as_mut_slice(), place);
    }

    /// Whether all have told. It takes no memory.
    pub fn is_full(&self) -> bool
        ensures { result ≡ full self.now }
    {
        slots::is_full(self.slots.as_slice())
    }

    /// The members that haven't told.
    pub fn missing(&self, alloc: Global) -> Result<Names, NoMemory>
        ensures { IfOk result (λ names. names ≡ missing self.now) }
    {
        let names = slots::missing(alloc, self.slots.as_slice())?;
        Ok(names)
    }

    /// The report of the member at this place, if there is one. It takes no memory.
    pub fn get(&self, place: usize) -> Option<&Report>
        ensures { option_copied result ≡ value_at self.now place }
    {
        report_at(self.slots.as_slice(), place)
    }

    /// Whose image a member takes that adopted this epoch and has this spool: of the reports that adopted at
    /// least `opened`, the own one before the others, it is the greatest, by the adopted epoch and then by the
    /// end, and the first of these at a tie. It takes no memory.
    pub fn choose(&self, adopted: u64, own: &Spool, opened: u64) -> Choice
        ensures { report_chosen result
            (record { adopted = adopted; image = own.now.image }) self.now
            ≡ better opened (Some (record { adopted = adopted; image = own.now.image }))
            (best opened self.now) }
    {
        let place = best_of(self.slots.as_slice(), opened);
        if is_own_best(adopted, own, opened, self.get(place)) {
            return Choice::Own;
        }
        Choice::At(place)
    }

    /// The spool that a choice takes, where the own report is this, and the store has the journal up to this
    /// end. It takes no memory.
    pub fn into_spool(self, alloc: Global, choice: Choice, own: Report, stored: &StoreEnd) -> Spool
        ensures { result.image ≡ image_taken stored.now (report_chosen choice own self) }
    {
        match choice {
            Choice::Own => own.into_spool(),
            Choice::At(place) => match take_report(self.slots, place) {
                None => Spool::new(alloc, stored.get()),
                Some(report) => report.into_spool(),
            },
        }
    }
}
