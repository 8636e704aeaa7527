//! Answers of appends.
ghost use Rattle.std.specs.Prelude.{◌≡◌, IfOk};
ghost use Rattle.gz_replica.specs.Member.{send};
ghost use Rattle.gz_broker.specs.Brokers.{append_done};
ghost use Rattle.gz_broker.specs.Closing.{closed};

use gz_label::{LabelSet, Name, NoMemory};
use gz_wire::{Msg, Names, Send};
use std::alloc::Global;
use std::marker::Model;

/// What an append is answered.
#[derive(Debug, Drop)]
pub struct Answer {
    pub req: u64,
    pub status: u64,
    pub begin: u64,
    pub end: u64,
    pub value: u64,
    pub labels: LabelSet,
    pub route: Names,
}

impl Model for Answer {
    ghost use Rattle.gz_broker.specs.Brokers.{Answer};

    ghost Value = { Answer };

    ghost view = { λ a. record {
      req = a.req;
      status = a.status;
      begin = a.begin;
      end = a.end;
      value = a.value;
      labels = a.labels;
      route = a.route;
    } };
}

/// An answer that waits until the head is at its reach.
#[derive(Debug, Drop)]
pub struct Queued {
    pub reach: u64,
    pub to: Name,
    pub answer: Answer,
}

impl Model for Queued {
    ghost use Rattle.gz_broker.specs.Brokers.{Queued};

    ghost Value = { Queued };

    ghost view = { λ a. record { reach = a.reach; to = a.to; answer = a.answer } };
}

/// The answer to whom it goes.
pub fn done(journal: &Name, queued: Queued) -> Result<Send, NoMemory>
    ensures { IfOk result
        (λ sent. sent ≡ send queued.to (append_done journal.now queued.answer)) }
{
    let journal = journal.copy()?;
    let Queued { to, answer, .. } = queued;
    let Answer {
        req,
        status,
        begin,
        end,
        value,
        labels,
        route,
    } = answer;
    let msg = Msg::AppendDone {
        req,
        journal,
        status,
        begin,
        end,
        value,
        labels,
        route,
    };
    Ok(Send { to, msg })
}

/// The same as closed, with the epoch that was promised.
pub fn closed_done(
    alloc: Global,
    journal: &Name,
    promised: u64,
    queued: Queued,
) -> Result<Send, NoMemory>
    ensures { IfOk result (λ sent. sent
        ≡ send queued.to (append_done journal.now (closed promised queued.answer))) }
{
    let journal = journal.copy()?;
    let Queued { to, answer, .. } = queued;
    let msg = Msg::AppendDone {
        req: answer.req,
        journal,
        status: 10,
        begin: 0,
        end: 0,
        value: promised,
        labels: LabelSet::new(alloc),
        route: Names::new(alloc),
    };
    Ok(Send { to, msg })
}
