//! How a primary opens: it asks for promises and for the store's end, chooses an image, has it adopted, and asks
//! the key space to write its epoch to the sync key.
ghost use Rattle.std.specs.Prelude.{◌≡◌, ◌++◌, ◌∷◌, [], Some, if◌then◌else◌, IfOk, IfErr, OnOk, OnErr};
ghost use Rattle.gz_wire.specs.declared.msg.Msg.TheVariants as kinds;
ghost use Rattle.gz_replica.specs.declared.part.Part.TheVariants as parts;
ghost use Rattle.gz_replica.specs.Member.{send, to_each};
ghost use Rattle.gz_replica.specs.Slots.{all_at, full, slots_for};
ghost use Rattle.gz_replica.specs.Opening.{adopts, best, better, image_taken, keys, on_adopted, on_promised, on_store_end, on_sync_refused, on_synced, open_route, opening_at, own_report, report_chosen, store, sync_txn};

use crate::keys::{ask_keys, push_ask_keys};
use crate::sends::{adopt_each, push_each, push_heads, send_one};
use crate::{Choice, HeldEnds, Member, Part, Reached, Report, Reports, Route, Sent, StoreEnd};
use gz_label::{Name, NoMemory};
use gz_spool::Spool;
use gz_wire::{Msg, Sends};
use std::alloc::Global;
use std::mem;

/// What an opening part has.
#[derive(Debug, Drop)]
struct Waiting {
    route: Route,
    req: u64,
    reports: Reports,
    stored: Option<StoreEnd>,
}

/// Asks the store for its end by this number, and the others for their promises.
fn ask(alloc: Global, journal: &Name, route: &Route, req: u64) -> Result<Sends, NoMemory>
    ensures { IfOk result (λ sends. sends ≡ send store (kinds.StoreList req journal.now)
        ∷ to_each (kinds.Promise journal.now route.now.epoch) route.now.others) }
{
    let to = Name::of(alloc, "store")?;
    let list = Msg::StoreList {
        req,
        journal: journal.copy()?,
    };
    let mut sends = send_one(alloc, &to, list)?;
    let promise = Msg::Promise {
        journal: journal.copy()?,
        epoch: route.epoch,
    };
    push_each(&mut sends, &promise, route.others.as_slice())?;
    Ok(sends)
}

/// What a primary has and sends as it opens: the others hold the journal up to this end.
fn open_at(
    alloc: Global,
    journal: &Name,
    route: &Route,
    end: u64,
    begin: u64,
) -> Result<(Sends, HeldEnds), NoMemory>
    ensures sends { IfOk result (λ opened. opened.0
        ≡ to_each (kinds.Head journal.now route.now.epoch end begin) route.now.others) }
    ensures held { IfOk result (λ opened. opened.1 ≡ all_at end route.now.others) }
{
    let others = route.others.as_slice();
    let mut sends = Sends::new(alloc);
    push_heads(&mut sends, journal, route.epoch, end, begin, others)?;
    let held = HeldEnds::all_at(alloc, end, others)?;
    Ok((sends, held))
}

impl Member {
    /// A route above what was promised, with this broker first: its epoch is promised, the store is asked for
    /// its end by this number, which is a request's, and the others for their promises.
    pub fn open_route(&mut self, journal: &Name, route: Route, req: u64) -> Result<Sends, NoMemory>
        ensures member { OnOk result
            (self.new ≡ (open_route journal.now req self.old route).member) }
        ensures sends { IfOk result
            (λ sends. sends ≡ (open_route journal.now req self.old route).sends) }
        ensures stays { OnErr result (self.new ≡ self.old) }
    {
        let sends = ask(self.alloc, journal, &route, req)?;
        let reports = Reports::of(self.alloc, route.others.as_slice())?;
        self.promised = route.epoch;
        self.part = Part::Opening {
            route,
            req,
            reports,
            stored: None,
        };
        Ok(sends)
    }

    // The chosen image to each of the others.
    fn adopt_chosen(
        &self,
        journal: &Name,
        choice: Choice,
        route: &Route,
        reports: &Reports,
        stored: &StoreEnd,
    ) -> Result<Sends, NoMemory>
        ensures { IfOk result (λ sends. sends ≡ to_each (kinds.Adopt journal.now route.now.epoch
            (image_taken stored.now (report_chosen choice (own_report self.now) reports.now)))
            route.now.others) }
    {
        let others = route.others.as_slice();
        match choice {
            Choice::Own => {
                let sends = adopt_each(self.alloc, journal, route.epoch, &self.spool, others)?;
                Ok(sends)
            }
            Choice::At(place) => match reports.get(place) {
                None => {
                    let empty = Spool::new(self.alloc, stored.get());
                    let sends = adopt_each(self.alloc, journal, route.epoch, &empty, others)?;
                    Ok(sends)
                }
                Some(report) => {
                    let spool = report.spool();
                    let sends = adopt_each(self.alloc, journal, route.epoch, spool, others)?;
                    Ok(sends)
                }
            },
        }
    }

    // What is sent once all have told: the chosen image, and where there are no others the transaction. Beside
    // it a slot for each of the others.
    fn adoption(
        &self,
        journal: &Name,
        req: u64,
        choice: Choice,
        route: &Route,
        reports: &Reports,
        stored: &StoreEnd,
    ) -> Result<(Sends, Reached), NoMemory>
        ensures sends { IfOk result (λ adoption. adoption.0
            ≡ to_each (kinds.Adopt journal.now route.now.epoch
            (image_taken stored.now (report_chosen choice (own_report self.now) reports.now)))
            route.now.others
            ++ (if full adoption.1 then send keys (sync_txn journal.now route.now.epoch req) ∷ []
            else [])) }
        ensures reached { IfOk result (λ adoption. adoption.1 ≡ slots_for route.now.others) }
    {
        let mut sends = self.adopt_chosen(journal, choice, route, reports, stored)?;
        let reached = Reached::of(self.alloc, route.others.as_slice())?;
        if !reached.is_full() {
            return Ok((sends, reached));
        }
        push_ask_keys(&mut sends, self.alloc, journal, route.epoch, req)?;
        Ok((sends, reached))
    }

    // All have told: the best image is adopted. Out of memory gives back what was waiting.
    fn adopts(
        &mut self,
        journal: &Name,
        req: u64,
        route: Route,
        list_req: u64,
        reports: Reports,
        stored: StoreEnd,
    ) -> Result<Sent, Waiting>
        ensures member { OnOk result (self.new ≡ (adopts journal.now req self.old route
            (image_taken stored (better route.opened (Some (own_report self.old))
            (best route.opened reports)))).member) }
        ensures sends { IfOk result (λ sent. sent.sends ≡ (adopts journal.now req self.old route
            (image_taken stored (better route.opened (Some (own_report self.old))
            (best route.opened reports)))).sends) }
        ensures numbered { IfOk result (λ sent. sent.numbered
            ≡ (adopts journal.now req self.old route
            (image_taken stored (better route.opened (Some (own_report self.old))
            (best route.opened reports)))).numbered) }
        ensures back { IfErr result (λ waiting. waiting
            ≡ record { route = route; req = list_req; reports = reports; stored = Some stored }) }
        ensures stays { OnErr result (self.new ≡ self.old) }
    {
        let choice = reports.choose(self.adopted, &self.spool, route.opened);
        match self.adoption(journal, req, choice, &route, &reports, &stored) {
            Err(_e) => Err(Waiting {
                route,
                req: list_req,
                reports,
                stored: Some(stored),
            }),
            Ok((sends, reached)) => {
                let own = mem::replace(&mut self.spool, Spool::new(self.alloc, 0));
                let own = Report::new(self.adopted, own);
                self.spool = reports.into_spool(self.alloc, choice, own, &stored);
                self.adopted = route.epoch;
                if reached.is_full() {
                    self.part = Part::Syncing { route, req };
                    return Ok(Sent { sends, numbered: 1 });
                }
                self.part = Part::Adopting { route, reached };
                Ok(Sent { sends, numbered: 0 })
            }
        }
    }

    // The part is one that waits.
    fn wait(&mut self, waiting: Waiting)
        ensures { self.new ≡ record self.old {
          part
              = parts.Opening waiting.route waiting.req waiting.reports waiting.stored;
        } }
    {
        let Waiting {
            route,
            req,
            reports,
            stored,
        } = waiting;
        self.part = Part::Opening {
            route,
            req,
            reports,
            stored,
        };
    }

    // The part goes on waiting, or all have told. Out of memory gives back what was waiting.
    fn opening_at(&mut self, journal: &Name, req: u64, waiting: Waiting) -> Result<Sent, Waiting>
        ensures member { OnOk result (self.new ≡ (opening_at journal.now req self.old waiting.route
            waiting.req waiting.reports waiting.stored).member) }
        ensures sends { IfOk result (λ sent. sent.sends ≡ (opening_at journal.now req self.old
            waiting.route waiting.req waiting.reports waiting.stored).sends) }
        ensures numbered { IfOk result (λ sent. sent.numbered ≡ (opening_at journal.now req self.old
            waiting.route waiting.req waiting.reports waiting.stored).numbered) }
        ensures back { IfErr result (λ back. back ≡ waiting) }
        ensures stays { OnErr result (self.new ≡ self.old) }
    {
        let Waiting {
            route,
            req: list_req,
            reports,
            stored,
        } = waiting;
        match stored {
            None => {
                self.part = Part::Opening {
                    route,
                    req: list_req,
                    reports,
                    stored: None,
                };
                Ok(Sent::nothing(self.alloc))
            }
            Some(stored) => {
                if !reports.is_full() {
                    self.part = Part::Opening {
                        route,
                        req: list_req,
                        reports,
                        stored: Some(stored),
                    };
                    return Ok(Sent::nothing(self.alloc));
                }
                self.adopts(journal, req, route, list_req, reports, stored)
            }
        }
    }

    /// A member's promise to a part that opens at this epoch: the first one of each member counts. Once the
    /// store and all others have told, the best image is adopted and sent to them; where there are none, the
    /// key space is asked by a request of this number.
    pub fn on_promised(
        &mut self,
        journal: &Name,
        from: &Name,
        epoch: u64,
        report: Report,
        req: u64,
    ) -> Result<Sent, NoMemory>
        ensures member { OnOk result (self.new
            ≡ (on_promised journal.now req self.old from.now epoch report self.old.part).member) }
        ensures sends { IfOk result (λ sent. sent.sends
            ≡ (on_promised journal.now req self.old from.now epoch report self.old.part).sends) }
        ensures numbered { IfOk result (λ sent. sent.numbered
            ≡ (on_promised journal.now req self.old from.now epoch report self.old.part).numbered) }
        ensures stays { OnErr result (self.new ≡ self.old) }
    {
        let part = mem::replace(&mut self.part, Part::Closed);
        match part {
            Part::Opening {
                route,
                req: list_req,
                reports,
                stored,
            } => {
                let mut waiting = Waiting {
                    route,
                    req: list_req,
                    reports,
                    stored,
                };
                if epoch != waiting.route.epoch {
                    self.wait(waiting);
                    return Ok(Sent::nothing(self.alloc));
                }
                let place = waiting.reports.fill(from, report);
                match self.opening_at(journal, req, waiting) {
                    Ok(sent) => Ok(sent),
                    Err(waiting) => {
                        let mut waiting = waiting;
                        waiting.reports.empty(place);
                        self.wait(waiting);
                        Err(NoMemory)
                    }
                }
            }
            part => {
                self.part = part;
                Ok(Sent::nothing(self.alloc))
            }
        }
    }

    /// The store's answer to the request of this number: it counts where the part that opens sent that request
    /// and has no answer yet. What follows once all have told is as in `on_promised`.
    pub fn on_store_end(
        &mut self,
        journal: &Name,
        end: StoreEnd,
        answered: u64,
        req: u64,
    ) -> Result<Sent, NoMemory>
        ensures member { OnOk result (self.new
            ≡ (on_store_end journal.now req self.old end answered self.old.part).member) }
        ensures sends { IfOk result (λ sent. sent.sends
            ≡ (on_store_end journal.now req self.old end answered self.old.part).sends) }
        ensures numbered { IfOk result (λ sent. sent.numbered
            ≡ (on_store_end journal.now req self.old end answered self.old.part).numbered) }
        ensures stays { OnErr result (self.new ≡ self.old) }
    {
        let part = mem::replace(&mut self.part, Part::Closed);
        match part {
            Part::Opening {
                route,
                req: list_req,
                reports,
                stored,
            } => match stored {
                None => {
                    let mut waiting = Waiting {
                        route,
                        req: list_req,
                        reports,
                        stored: None,
                    };
                    if answered != list_req {
                        self.wait(waiting);
                        return Ok(Sent::nothing(self.alloc));
                    }
                    waiting.stored = Some(end);
                    match self.opening_at(journal, req, waiting) {
                        Ok(sent) => Ok(sent),
                        Err(waiting) => {
                            let mut waiting = waiting;
                            waiting.stored = None;
                            self.wait(waiting);
                            Err(NoMemory)
                        }
                    }
                }
                Some(stored) => {
                    let waiting = Waiting {
                        route,
                        req: list_req,
                        reports,
                        stored: Some(stored),
                    };
                    self.wait(waiting);
                    Ok(Sent::nothing(self.alloc))
                }
            },
            part => {
                self.part = part;
                Ok(Sent::nothing(self.alloc))
            }
        }
    }

    /// A member has adopted, for a part that waits for this epoch. Once all have, the key space is asked to
    /// write the epoch, by a request of this number.
    pub fn on_adopted(
        &mut self,
        journal: &Name,
        from: &Name,
        epoch: u64,
        end: u64,
        req: u64,
    ) -> Result<Sent, NoMemory>
        ensures member { OnOk result (self.new
            ≡ (on_adopted journal.now req self.old from.now epoch end self.old.part).member) }
        ensures sends { IfOk result (λ sent. sent.sends
            ≡ (on_adopted journal.now req self.old from.now epoch end self.old.part).sends) }
        ensures numbered { IfOk result (λ sent. sent.numbered
            ≡ (on_adopted journal.now req self.old from.now epoch end self.old.part).numbered) }
        ensures stays { OnErr result (self.new ≡ self.old) }
    {
        let part = mem::replace(&mut self.part, Part::Closed);
        match part {
            Part::Adopting { route, reached } => {
                let mut reached = reached;
                if epoch != route.epoch {
                    self.part = Part::Adopting { route, reached };
                    return Ok(Sent::nothing(self.alloc));
                }
                let place = reached.fill(from, end);
                if !reached.is_full() {
                    self.part = Part::Adopting { route, reached };
                    return Ok(Sent::nothing(self.alloc));
                }
                match ask_keys(self.alloc, journal, route.epoch, req) {
                    Ok(sends) => {
                        self.part = Part::Syncing { route, req };
                        Ok(Sent { sends, numbered: 1 })
                    }
                    Err(e) => {
                        reached.empty(place);
                        self.part = Part::Adopting { route, reached };
                        Err(e)
                    }
                }
            }
            part => {
                self.part = part;
                Ok(Sent::nothing(self.alloc))
            }
        }
    }

    /// The key space wrote the epoch: the part is open, each other member holds the spool's end, and all of it
    /// is acknowledged.
    pub fn on_synced(&mut self, journal: &Name) -> Result<Sends, NoMemory>
        ensures member { OnOk result
            (self.new ≡ (on_synced journal.now self.old self.old.part).member) }
        ensures sends { IfOk result
            (λ sends. sends ≡ (on_synced journal.now self.old self.old.part).sends) }
        ensures stays { OnErr result (self.new ≡ self.old) }
    {
        let part = mem::replace(&mut self.part, Part::Closed);
        match part {
            Part::Syncing { route, req } => {
                let end = self.spool.end();
                let begin = self.spool.begin();
                match open_at(self.alloc, journal, &route, end, begin) {
                    Ok((sends, held)) => {
                        self.spool.raise_head(end);
                        self.part = Part::Open { route, held };
                        Ok(sends)
                    }
                    Err(e) => {
                        self.part = Part::Syncing { route, req };
                        Err(e)
                    }
                }
            }
            part => {
                self.part = part;
                Ok(Sends::new(self.alloc))
            }
        }
    }

    /// The key space has a later route: a part that waits for it closes. It takes no memory.
    pub fn on_sync_refused(&mut self)
        ensures { self.new ≡ (on_sync_refused self.old self.old.part).member }
    {
        let Part::Syncing { .. } = &self.part else {
            return;
        };
        self.part = Part::Closed;
    }
}
