//! A broker's part in one journal.
ghost use Rattle.std.specs.Prelude.{◌≡◌, Option};
ghost use Rattle.gz_replica.specs.Member.{new_member, open_epoch_of};

mod following;
mod leading;
mod opening;
mod resending;

use crate::Part;
use gz_spool::Spool;
use std::alloc::Global;
use std::marker::Model;

/// A broker's part in one journal: the greatest epoch that it promised, the one whose image it adopted last,
/// its spool, and what it does as primary. Each rule is a method, which gives what is sent. After NoMemory
/// nothing has changed.
#[derive(Debug, Drop)]
pub struct Member {
    alloc: Global,
    promised: u64,
    adopted: u64,
    spool: Spool,
    part: Part,
}

impl Model for Member {
    ghost use Rattle.gz_replica.specs.Member.{Member};

    ghost Value = { Member };

    ghost view = { λ a. record {
      promised = a.promised;
      adopted = a.adopted;
      spool = a.spool.image;
      part = a.part;
    } };
}

impl Member {
    /// A member that has done nothing. It takes no memory.
    pub fn new(alloc: Global) -> Member
        ensures { result ≡ new_member }
    {
        Member {
            alloc,
            promised: 0,
            adopted: 0,
            spool: Spool::new(alloc, 0),
            part: Part::Closed,
        }
    }

    /// The greatest epoch that was promised, 0 at first. It takes no memory.
    pub fn promised(&self) -> u64
        ensures { result ≡ self.now.promised }
    {
        self.promised
    }

    /// The epoch whose image was adopted last, 0 at first. It takes no memory.
    pub fn adopted(&self) -> u64
        ensures { result ≡ self.now.adopted }
    {
        self.adopted
    }

    /// What it holds of the journal. It takes no memory.
    pub fn spool(&self) -> &Spool
        ensures { result.now.image ≡ self.now.spool }
    {
        &self.spool
    }

    /// What it does as primary. It takes no memory.
    pub fn part(&self) -> &Part
        ensures { result.now ≡ self.now.part }
    {
        &self.part
    }

    /// The epoch at which it is an open primary, or None where it isn't. It takes no memory.
    pub fn open_epoch(&self) -> Option<u64>
        ensures { result ≡ open_epoch_of self.now.part }
    {
        self.part.open_epoch()
    }
}
