//! The clock of a producer.

ghost use Rattle.std.specs.Prelude.{◌≡◌, ◌-◌, ◌^◌, ◌<◌, ◌↔◌, IsErr, IfOk, OnErr};
ghost use Rattle.gz_uuid.specs.Clock.{tick_of};

use crate::producer::ProducerId;
use std::error::Error;
use std::fmt;
use std::marker::Model;

/// A clock: 60 bits of time in units of 100 nanoseconds since 15 October 1582 (RFC 9562, section 5.1), and
/// then 4 bits of a counter.
#[derive(Clone, Copy, Debug, PartialEq, Eq, PartialOrd, Ord)]
pub struct MsgClock(pub u64);

impl Model for MsgClock {
    ghost use Rattle.std.specs.Prelude.{ℕ};

    ghost Value = { ℕ };

    ghost view = { λ clock. clock.0 };

    ghost inverse = { λ value. record { 0 = value } };
}

impl MsgClock {
    /// The clock of this number.
    pub fn new(value: u64) -> MsgClock
        ensures { result ≡ value }
    {
        MsgClock(value)
    }

    /// The clock as a number.
    pub fn value(self) -> u64
        ensures { result ≡ self }
    {
        self.0
    }
}

/// A producer's clock is at its end, 2^64 - 1, and gives no further one.
#[derive(Clone, Copy, Debug, PartialEq, Eq)]
pub struct ClockEnd;

impl fmt::Display for ClockEnd {
    fn fmt<W: fmt::Write>(&self, f: &mut fmt::Formatter<W>) -> fmt::Result {
        write!(f, "the producer's clock is at its end")
    }
}

impl Error for ClockEnd {}

/// A producer and the last clock that it gave. Its clocks rise, so that no two of its identifiers are
/// equal: keep one of these for each producer.
#[derive(Debug, Drop)]
pub struct Producer {
    id: ProducerId,
    last: MsgClock,
}

impl Model for Producer {
    ghost use Rattle.gz_uuid.specs.Clock.{Ticking};

    ghost Value = { Ticking };

    ghost view = { λ p. record { id = p.id; last = p.last } };
}

impl Producer {
    /// A producer that has given no clock; the last one counts as 0.
    pub fn new(id: ProducerId) -> Producer
        ensures { result ≡ record { id = id; last = 0 } }
    {
        Producer {
            id,
            last: MsgClock(0),
        }
    }

    /// Who the producer is.
    pub fn id(&self) -> ProducerId
        ensures { result ≡ self.now.id }
    {
        self.id
    }

    /// The last clock that was given; 0 before the first.
    pub fn last(&self) -> MsgClock
        ensures { result ≡ self.now.last }
    {
        self.last
    }

    /// The next clock at the time `now`, in units of 100 nanoseconds since 15 October 1582, below 2^60: the
    /// greater of the last clock plus 1 and of `now * 16`. ClockEnd exactly where the last clock is
    /// 2^64 - 1; then nothing changes.
    pub fn tick(&mut self, now: u64) -> Result<MsgClock, ClockEnd>
        requires { now < 2 ^ 60 }
        ensures end { IsErr result ↔ (self.old.last ≡ 2 ^ 64 - 1) }
        ensures clock { IfOk result (λ clock. clock ≡ tick_of self.old.last now) }
        ensures rises { IfOk result (λ clock. self.old.last < clock) }
        ensures kept { IfOk result (λ clock. self.new ≡ record self.old { last = clock }) }
        ensures unchanged { OnErr result (self.new ≡ self.old) }
    {
        if self.last.0 == u64::MAX {
            return Err(ClockEnd);
        }
        let clock = MsgClock((self.last.0 + 1).max(now * 16));
        self.last = clock;
        Ok(clock)
    }
}
