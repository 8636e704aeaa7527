// Messages at their limits, and a line byte for byte.

use gz_frame::{Message, Messages, print_line};
use gz_label::Blob;
use gz_uuid::{Flags, MsgClock, Parts, ProducerId};
use std::alloc::Global;
use std::test::Fail;

// The line was written out by hand: 69 bytes, and a newline.
#[test]
fn line_of_a_message(rt: HostRuntime) -> Result<(), Fail> {
    let alloc = rt.alloc();
    let parts = Parts {
        producer: ProducerId::client(1).unwrap(),
        clock: MsgClock::new(16),
        flags: Flags::OUTSIDE_TXN,
    };
    let key = String::from_str(alloc, "a")?;
    let value = String::from_str(alloc, "1")?;
    assert!(rt; key.len() <= 256 && value.len() <= 4096);
    let message = Message::of(parts, key, value);
    assert_eq!(rt; message.parts(), parts);
    let line = print_line(alloc, &message)?;
    let want =
        "{\"key\":\"a\",\"uuid\":\"00000001-0000-1000-8001-030000000001\",\"value\":\"1\"}\n";
    assert_eq!(rt; line.as_slice(), want.as_bytes());
    assert_eq!(rt; line.len(), 70);
    Ok(())
}

// Each key and value is a letter so many times.
#[test]
fn limits(rt: HostRuntime) -> Result<(), Fail> {
    let alloc = rt.alloc();
    let three = Flags::new(3).unwrap();
    for (letter, key, value, flags, lawful) in [
        (b'a', 0, 0, Flags::CONTINUE_TXN, true),
        (b'a', 256, 4096, Flags::ACK_TXN, true),
        (b'a', 257, 0, Flags::ACK_TXN, false),
        (b'a', 0, 4097, Flags::ACK_TXN, false),
        (b'a', 1, 1, three, false),
        (0xff, 1, 0, Flags::OUTSIDE_TXN, false),
        (0xff, 0, 1, Flags::OUTSIDE_TXN, false),
    ] {
        let parts = Parts {
            producer: ProducerId::shard(7).unwrap(),
            clock: MsgClock::new(u64::MAX),
            flags,
        };
        let keys = Blob::from_vec(vec![in alloc; letter; key]?);
        let values = Blob::from_vec(vec![in alloc; letter; value]?);
        let message = Message::new(parts, keys, values);
        assert_eq!(rt;
            message.is_some(),
            lawful,
            "of {key} and {value} times {letter}"
        );
        if let Some(message) = message {
            assert_eq!(rt; message.key().len(), key);
            assert_eq!(rt; message.value().len(), value);
            assert_eq!(rt; message.parts(), parts);
        }
    }
    Ok(())
}

fn outside(alloc: Global, key: &[u8]) -> Result<Message, Fail> {
    let parts = Parts {
        producer: ProducerId::client(2).unwrap(),
        clock: MsgClock::new(1),
        flags: Flags::OUTSIDE_TXN,
    };
    Ok(Message::new(parts, Blob::of(alloc, key)?, Blob::new(alloc)).ok_or("no message")?)
}

#[test]
fn messages_in_order(rt: HostRuntime) -> Result<(), Fail> {
    let alloc = rt.alloc();
    let mut messages = Messages::new(alloc);
    messages.push(outside(alloc, b"a")?)?;
    let mut more = Messages::new(alloc);
    more.push(outside(alloc, b"b")?)?;
    messages.append(more)?;
    let mut keys = Blob::new(alloc);
    for message in messages.as_slice() {
        keys.append(message.key().as_bytes())?;
    }
    assert_eq!(rt; keys.as_slice(), b"ab".as_slice());
    Ok(())
}
