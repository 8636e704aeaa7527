//! Work with message lines.

use gz_frame::{Message, print_line, read_line};
use gz_label::{Blob, NoMemory};
use gz_uuid::{Flags, MsgClock, Parts, ProducerId};
use std::alloc::Global;

/// An OUTSIDE message of the client's producer, where there is such a producer.
fn message(alloc: Global, producer: u32, clock: u64) -> Result<Option<Message>, NoMemory> {
    let Some(id) = ProducerId::client(producer as u64) else {
        return Ok(None);
    };
    let parts = Parts {
        producer: id,
        clock: MsgClock::new(clock),
        flags: Flags::OUTSIDE_TXN,
    };
    let number = producer % 100;
    let key = format!(in alloc; "key{number}")?;
    let key = Blob::of(alloc, key.as_bytes())?;
    let value = Blob::of(alloc, b"1")?;
    Ok(Message::new(parts, key, value))
}

/// Prints so many messages and reads their lines. Answers how many were read back.
pub fn print_and_read(alloc: Global, count: u32) -> Result<u64, NoMemory> {
    let mut read = 0u64;
    for i in 0..count {
        if let Some(message) = message(alloc, i, i as u64 + 1)? {
            let line = print_line(alloc, &message)?;
            if read_line(alloc, line.as_slice())?.is_some() {
                read = read.saturating_add(1);
            }
        }
    }
    Ok(read)
}
