// Rows from outside: identifiers by their text, and what is refused.

use gz_uuid::{ClockEnd, Flags, MsgClock, Parts, Producer, ProducerId, build, split};
use std::test::Fail;
use uuid::Uuid;

#[test]
fn identifiers_by_their_text(rt: HostRuntime) {
    let all = Flags::new(1023).unwrap();
    for (producer, clock, flags, text) in [
        (
            ProducerId::new([5, 0, 0, 0, 0, 7]),
            0x1ef9_0000_0000_0012,
            Flags::OUTSIDE_TXN,
            "00000001-9000-11ef-8801-050000000007",
        ),
        (
            ProducerId::client(1),
            16,
            Flags::OUTSIDE_TXN,
            "00000001-0000-1000-8001-030000000001",
        ),
        (
            ProducerId::client(0xff_ffff_ffff),
            0,
            Flags::CONTINUE_TXN,
            "00000000-0000-1000-8000-03ffffffffff",
        ),
        (
            ProducerId::shard(0x01_0203_0405),
            u64::MAX,
            all,
            "ffffffff-ffff-1fff-bfff-050102030405",
        ),
        (
            ProducerId::shard(0),
            0xfff1_2345_6789_abc3,
            Flags::ACK_TXN,
            "56789abc-1234-1fff-8c02-050000000000",
        ),
    ] {
        let parts = Parts {
            producer: producer.unwrap(),
            clock: MsgClock::new(clock),
            flags,
        };
        let id = build(parts.producer, parts.clock, parts.flags);
        let mut buffer = Uuid::encode_buffer();
        assert_eq!(rt; id.hyphenated().encode_lower(&mut buffer), text);
        assert_eq!(rt; split(id), Some(parts));
    }
}

#[test]
fn refused(rt: HostRuntime) -> Result<(), Fail> {
    for text in [
        "00000001-9000-01ef-8801-050000000007",
        "00000001-9000-41ef-8801-050000000007",
        "00000001-9000-11ef-0801-050000000007",
        "00000001-9000-11ef-4801-050000000007",
        "00000001-9000-11ef-c801-050000000007",
        "00000001-9000-11ef-8801-040000000007",
        "00000000-0000-0000-0000-000000000000",
    ] {
        assert_eq!(rt; split(Uuid::parse_str(text)?), None, "of {text}");
    }
    assert_eq!(rt; ProducerId::new([6, 1, 1, 1, 1, 1]), None);
    assert_eq!(rt; ProducerId::shard(0x100_0000_0000), None);
    assert_eq!(rt; ProducerId::client(u64::MAX), None);
    assert_eq!(rt; Flags::new(1024), None);
    Ok(())
}

#[test]
fn ticks_rise(rt: HostRuntime) -> Result<(), Fail> {
    let id = ProducerId::client(7).unwrap();
    let mut producer = Producer::new(id);
    assert_eq!(rt; producer.last().value(), 0);
    for (now, clock) in [
        (0, 1),
        (0, 2),
        (1, 16),
        (1, 17),
        (0, 18),
        (0xfff_ffff_ffff_ffff, 0xffff_ffff_ffff_fff0),
        (0, 0xffff_ffff_ffff_fff1),
    ] {
        assert!(rt; now < 0x1000_0000_0000_0000);
        assert_eq!(rt; producer.tick(now), Ok(MsgClock::new(clock)), "at {now}");
        assert_eq!(rt; producer.last().value(), clock);
    }
    for _ in 0..14 {
        assert!(rt; producer.tick(0).is_ok());
    }
    assert_eq!(rt; producer.last().value(), u64::MAX);
    assert_eq!(rt; producer.tick(0), Err(ClockEnd));
    assert_eq!(rt; producer.last().value(), u64::MAX);
    assert_eq!(rt; producer.id(), id);
    let text = format!(in rt.alloc(); "{ClockEnd}")?;
    assert_eq!(rt; text.as_str(), "the producer's clock is at its end");
    Ok(())
}
