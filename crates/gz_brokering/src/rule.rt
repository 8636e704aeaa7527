//! The rules of a member, each with what it is told.
ghost use Rattle.std.specs.Prelude.{◌≡◌, IfOk, OnOk};
ghost use Rattle.gz_brokering.specs.Rules.{IsWithin, outcome_of};

use gz_label::{Entry, Image, Name, NoMemory};
use gz_replica::{Member, Report, Route, Sent, StoreEnd};
use gz_wire::Sends;
use std::alloc::Global;

/// A rule of a member, with what its message says.
#[derive(Debug, Drop)]
pub enum Rule {
    OpenRoute {
        route: Route,
    },
    OnPromise {
        from: Name,
        epoch: u64,
    },
    OnPromised {
        from: Name,
        epoch: u64,
        report: Report,
    },
    OnStoreEnd {
        end: StoreEnd,
        answered: u64,
    },
    OnAdopt {
        from: Name,
        epoch: u64,
        image: Image,
    },
    OnAdopted {
        from: Name,
        epoch: u64,
        end: u64,
    },
    OnSynced,
    OnSyncRefused,
    OnReplicate {
        from: Name,
        epoch: u64,
        offset: u64,
        entry: Entry,
        head: u64,
    },
    OnHeld {
        from: Name,
        epoch: u64,
        end: u64,
    },
    OnHead {
        epoch: u64,
        head: u64,
        begin: u64,
    },
    OnStored {
        end: u64,
    },
    Put {
        entry: Entry,
    },
    Nothing,
}

// What is sent, with so many numbered requests.
fn with_number(sends: Sends, numbered: u64) -> Sent
    ensures sends { result.sends ≡ sends }
    ensures numbered { result.numbered ≡ numbered }
{
    Sent { sends, numbered }
}

impl Rule {
    /// What the member does by the rule. A request of its own has the number `req`.
    #[tactic(auto, using(crate::proofs::Ruled::promise_numbers, crate::proofs::Ruled::adopt_numbers, crate::proofs::Ruled::replicate_numbers, crate::proofs::Ruled::held_numbers, crate::proofs::Ruled::head_sends, crate::proofs::Ruled::head_numbers, crate::proofs::Ruled::synced_numbers, crate::proofs::Ruled::refused_sends, crate::proofs::Ruled::refused_numbers, crate::proofs::Ruled::stored_numbers, crate::proofs::Ruled::put_numbers))]
    pub fn obey(
        self,
        alloc: Global,
        member: &mut Member,
        journal: &Name,
        req: u64,
    ) -> Result<Sent, NoMemory>
        requires { IsWithin self member.old }
        ensures member { OnOk result
            (member.new ≡ (outcome_of journal.now req member.old self).member) }
        ensures sends { IfOk result
            (λ sent. sent.sends ≡ (outcome_of journal.now req member.old self).sends) }
        ensures numbered { IfOk result
            (λ sent. sent.numbered ≡ (outcome_of journal.now req member.old self).numbered) }
    {
        match self {
            Rule::OpenRoute { route } => {
                let sends = member.open_route(journal, route, req)?;
                Ok(with_number(sends, 1))
            }
            Rule::OnPromise { from, epoch } => {
                let sends = member.on_promise(journal, &from, epoch)?;
                Ok(with_number(sends, 0))
            }
            Rule::OnPromised {
                from,
                epoch,
                report,
            } => {
                let sent = member.on_promised(journal, &from, epoch, report, req)?;
                Ok(sent)
            }
            Rule::OnStoreEnd { end, answered } => {
                let sent = member.on_store_end(journal, end, answered, req)?;
                Ok(sent)
            }
            Rule::OnAdopt { from, epoch, image } => {
                let sends = member.on_adopt(journal, &from, epoch, image)?;
                Ok(with_number(sends, 0))
            }
            Rule::OnAdopted { from, epoch, end } => {
                let sent = member.on_adopted(journal, &from, epoch, end, req)?;
                Ok(sent)
            }
            Rule::OnSynced => {
                let sends = member.on_synced(journal)?;
                Ok(with_number(sends, 0))
            }
            Rule::OnSyncRefused => {
                member.on_sync_refused();
                Ok(Sent::nothing(alloc))
            }
            Rule::OnReplicate {
                from,
                epoch,
                offset,
                entry,
                head,
            } => {
                let sends = member.on_replicate(journal, &from, epoch, offset, entry, head)?;
                Ok(with_number(sends, 0))
            }
            Rule::OnHeld { from, epoch, end } => {
                let sends = member.on_held(journal, &from, epoch, end)?;
                Ok(with_number(sends, 0))
            }
            Rule::OnHead { epoch, head, begin } => {
                member.on_head(epoch, head, begin);
                Ok(Sent::nothing(alloc))
            }
            Rule::OnStored { end } => {
                let sends = member.on_stored(journal, end)?;
                Ok(with_number(sends, 0))
            }
            Rule::Put { entry } => {
                let sends = member.put(journal, entry)?;
                Ok(with_number(sends, 0))
            }
            Rule::Nothing => Ok(Sent::nothing(alloc)),
        }
    }
}
