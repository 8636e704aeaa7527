//! Identifiers that carry a producer, a clock and flags.

ghost use Rattle.std.specs.Prelude.{◌≡◌, ◌^◌, ◌<◌, ◌↔◌, ℕ, List, All, length, IsTrue, IsSome, IfSome, IfNone};
ghost use Rattle.gz_uuid.specs.Identifier.{identifier, AreParts, is_identifier, producer_of, clock_of, flags_of};

use crate::clock::MsgClock;
use crate::parts::{Flags, Parts};
use crate::producer::ProducerId;
use uuid::Uuid;

/// The identifier of a producer, a clock and flags: version 1 (RFC 9562, section 5.1) with time_low holding
/// clock bits 4 to 35, time_mid 36 to 51 and time_high 52 to 63, the variant binary 10, the clock sequence
/// holding the clock's 4 lowest bits and then the 10 bits of the flags, and the producer as the node.
#[tactic(auto, using(crate::proofs::Octets::six_items, crate::proofs::Reading::is_identifier_identifier))]
pub fn build(producer: ProducerId, clock: MsgClock, flags: Flags) -> Uuid
    ensures value { result ≡ identifier producer clock flags }
    ensures form { IsTrue (is_identifier result) }
    ensures lawful { AreParts producer clock flags }
{
    let value = clock.value();
    let low = ((value / 0x10 % 0x1_0000_0000) as u32).to_be_bytes();
    let mid = ((value / 0x10_0000_0000 % 0x1_0000) as u16).to_be_bytes();
    let high = ((0x1000 + value / 0x10_0000_0000_0000) as u16).to_be_bytes();
    let sequence = (0x8000 + (value % 0x10) as u16 * 0x400 + flags.bits()).to_be_bytes();
    let node = producer.octets();
    Uuid::from_bytes([
        low[0],
        low[1],
        low[2],
        low[3],
        mid[0],
        mid[1],
        high[0],
        high[1],
        sequence[0],
        sequence[1],
        node[0],
        node[1],
        node[2],
        node[3],
        node[4],
        node[5],
    ])
}

/// The producer, the clock and the flags that `build` makes this identifier of. None exactly where it is of
/// none: the version (RFC 9562, section 4.2) is not 1, the variant (section 4.1) is not binary 10, or the
/// node's multicast bit (section 6.10) is clear.
#[tactic(auto, using(crate::proofs::Reading::last_six, crate::proofs::Reading::identifier_read))]
pub fn split(id: Uuid) -> Option<Parts>
    ensures form { IsSome result ↔ IsTrue (is_identifier id) }
    ensures some { IfSome result (λ parts. id ≡ identifier parts.producer parts.clock parts.flags) }
    ensures lawful { IfSome result (λ parts. AreParts parts.producer parts.clock parts.flags) }
    ensures none { IfNone result ((producer : List ℕ) (clock flags : ℕ) →
        AreParts producer clock flags → id ≡ identifier producer clock flags → ⊥) }

    // The same parts, read from the bytes one by one.
    ensures producer { IfSome result (λ parts. parts.producer ≡ producer_of id) }
    ensures clock { IfSome result (λ parts. parts.clock ≡ clock_of id) }
    ensures flags { IfSome result (λ parts. parts.flags ≡ flags_of id) }
{
    let bytes = id.as_bytes();
    bytes_fit(bytes);
    if bytes[6] / 0x10 != 1 || bytes[8] / 0x40 != 2 {
        return None;
    }
    let node = [
        bytes[10], bytes[11], bytes[12], bytes[13], bytes[14], bytes[15],
    ];
    let producer = ProducerId::new(node)?;
    let flags = Flags::new((bytes[8] % 4) as u16 * 0x100 + bytes[9] as u16)?;
    let clock = clock_in(&id);
    Some(Parts {
        producer,
        clock,
        flags,
    })
}

/// `split` undoes `build`: an identifier has the form, and its producer, clock and flags read back. So two
/// identifiers are equal only where all three are.
#[tactic(auto, using(crate::proofs::Reading::is_identifier_identifier, crate::proofs::Reading::clock_of_identifier, crate::proofs::Reading::flags_of_identifier))]
pub fn split_undoes_build()
    ensures form { (producer : List ℕ) (clock flags : ℕ) → AreParts producer clock flags →
        IsTrue (is_identifier (identifier producer clock flags)) }
    ensures producer { (producer : List ℕ) (clock flags : ℕ) → AreParts producer clock flags →
        producer_of (identifier producer clock flags) ≡ producer }
    ensures clock { (producer : List ℕ) (clock flags : ℕ) → AreParts producer clock flags →
        clock_of (identifier producer clock flags) ≡ clock }
    ensures flags { (producer : List ℕ) (clock flags : ℕ) → AreParts producer clock flags →
        flags_of (identifier producer clock flags) ≡ flags }
{}

// The clock in the time fields and in the four bits above the flags.
fn clock_in(id: &Uuid) -> MsgClock
    ensures { result ≡ clock_of id.now }
{
    let (low, mid, high, last) = id.as_fields();
    MsgClock::new(
        (high % 0x1000) as u64 * 0x10_0000_0000_0000
            + mid as u64 * 0x10_0000_0000
            + low as u64 * 0x10
            + (last[0] / 4 % 0x10) as u64,
    )
}

// There are sixteen bytes and each fits, which a clause cannot say of an array: this walk reads them, and
// is compiled away.
#[inline]
fn bytes_fit(bytes: &[u8; 16])
    ensures sixteen { length bytes.now ≡ 16 }
    ensures fit { All (λ byte. byte < 2 ^ 8) bytes.now }
{
    'bytes: for i in 0..16 {
        let _byte = bytes[i];
    }
}
