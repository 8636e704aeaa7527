//! What an identifier carries.

ghost use Rattle.std.specs.Prelude.{◌≡◌, ◌^◌, ◌<◌, ◌↔◌, IsSome, IfSome};

use crate::clock::MsgClock;
use crate::producer::ProducerId;
use std::marker::Model;

/// What a message is in its transaction: a number below 1,024.
#[derive(Clone, Copy, Debug, PartialEq, Eq)]
pub struct Flags {
    bits: u16,
}

impl Model for Flags {
    ghost use Rattle.std.specs.Prelude.{ℕ, ◌<◌, ◌^◌};

    ghost Value = { ℕ };

    ghost view = { λ flags. flags.bits };

    ghost invariant = { λ flags. flags.bits < 2 ^ 10 };

    ghost inverse = { λ bits. record { bits = bits } };
}

impl Flags {
    /// The message goes on with its producer's transaction, and waits for its acknowledgement.
    pub const CONTINUE_TXN: Flags = Flags { bits: 0 };

    /// The message is in no transaction.
    pub const OUTSIDE_TXN: Flags = Flags { bits: 1 };

    /// The message acknowledges its producer's transaction, up to its clock.
    pub const ACK_TXN: Flags = Flags { bits: 2 };

    /// The flags of these bits; None exactly from 1,024 on.
    pub fn new(bits: u16) -> Option<Flags>
        ensures fits { IsSome result ↔ (bits < 2 ^ 10) }
        ensures bits { IfSome result (λ flags. flags ≡ bits) }
    {
        if bits < 0x400 {
            Some(Flags { bits })
        } else {
            None
        }
    }

    /// The flags as a number below 1,024.
    pub fn bits(self) -> u16
        ensures value { result ≡ self }
        ensures fits { result < 2 ^ 10 }
    {
        self.bits
    }
}

// The numbers that clauses know them by, as `specs/Flags.antt` has them.
const _: () = prove!(Flags::CONTINUE_TXN.bits == 0);

const _: () = prove!(Flags::OUTSIDE_TXN.bits == 1);

const _: () = prove!(Flags::ACK_TXN.bits == 2);

/// The producer, the clock and the flags of an identifier.
#[derive(Clone, Copy, Debug, PartialEq, Eq)]
pub struct Parts {
    /// Who made it.
    pub producer: ProducerId,
    /// When it was made, by its producer's clock.
    pub clock: MsgClock,
    /// What its message is in a transaction.
    pub flags: Flags,
}
