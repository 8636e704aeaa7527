//! Who makes identifiers.

ghost use Rattle.std.specs.Prelude.{◌≡◌, ◌≤◌, ◌%◌, ◌^◌, ◌<◌, ◌↔◌, IsSome, IfSome, slice_index};
ghost use Rattle.gz_uuid.specs.Producer.{AreProducer, shard_octets, client_octets};

use std::marker::Model;

/// A producer: the node of its identifiers (RFC 9562, section 6.10), six octets with the multicast bit,
/// the least bit of the first octet, set, so that it is the address of no network card.
#[derive(Clone, Copy, Debug, PartialEq, Eq, PartialOrd, Ord)]
pub struct ProducerId {
    octets: [u8; 6],
}

impl Model for ProducerId {
    ghost use Rattle.std.specs.Prelude.{List, ℕ};
    ghost use Rattle.gz_uuid.specs.Producer.{AreProducer};

    ghost Value = { List ℕ };

    ghost view = { λ p. p.octets };

    ghost invariant = { λ p. AreProducer p.octets };

    ghost inverse = { λ octets. record { octets = octets } };
}

impl ProducerId {
    /// The producer of these octets; None exactly where the multicast bit is clear.
    pub fn new(octets: [u8; 6]) -> Option<ProducerId>
        ensures multicast { IsSome result ↔ (slice_index octets 0 % 2 ≡ 1) }
        ensures octets { IfSome result (λ producer. producer ≡ octets) }
    {
        if octets[0] % 2 == 1 {
            Some(ProducerId { octets })
        } else {
            None
        }
    }

    /// The producer of a shard at this revision: the octet 05, and then the revision in five octets, the
    /// high one first. None exactly from 2^40 on.
    pub fn shard(revision: u64) -> Option<ProducerId>
        ensures fits { IsSome result ↔ (revision < 2 ^ 40) }
        ensures octets { IfSome result (λ producer. producer ≡ shard_octets revision) }
    {
        numbered_producer(5, revision)
    }

    /// The producer of a client of this number: the octet 03, and then the number in five octets, the high
    /// one first. None exactly from 2^40 on.
    pub fn client(number: u64) -> Option<ProducerId>
        ensures fits { IsSome result ↔ (number < 2 ^ 40) }
        ensures octets { IfSome result (λ producer. producer ≡ client_octets number) }
    {
        numbered_producer(3, number)
    }

    /// The six octets, the first one with the multicast bit set.
    pub fn octets(&self) -> [u8; 6]
        ensures value { result ≡ self.now }
        ensures lawful { AreProducer self.now }
    {
        self.octets
    }
}

ghost use Rattle.gz_uuid.specs.Producer.{numbered};

// The producer of a first octet and a number in the five others.
fn numbered_producer(first: u8, number: u64) -> Option<ProducerId>
    requires { first % 2 ≡ 1 }
    ensures fits { IsSome result ↔ (number < 2 ^ 40) }
    ensures octets { IfSome result (λ producer. producer ≡ numbered first number) }
{
    if number >= 0x100_0000_0000 {
        return None;
    }
    Some(ProducerId {
        octets: [
            first,
            (number / 0x1_0000_0000 % 0x100) as u8,
            (number / 0x100_0000 % 0x100) as u8,
            (number / 0x1_0000 % 0x100) as u8,
            (number / 0x100 % 0x100) as u8,
            (number % 0x100) as u8,
        ],
    })
}
