//! Work with a sequencer.

use gz_frame::{Message, print_line};
use gz_label::{Blob, NoMemory};
use gz_sequencer::Sequencer;
use gz_uuid::{Flags, MsgClock, Parts, ProducerId};
use std::alloc::Global;

/// How many producers take turns.
const PRODUCERS: u32 = 1000;

/// How many lines a transaction has, the last of which acknowledges it.
const LINES: u32 = 10;

/// How many bytes are fed at once, or a line more.
const PIECE: usize = 65_536;

/// The greatest offset, and the most bytes, of which a sequencer takes more.
const MOST: u64 = 1 << 61;

/// The message of a producer's turn, where there is such a producer.
fn message(alloc: Global, producer: u32, turn: u32) -> Result<Option<Message>, NoMemory> {
    let Some(id) = ProducerId::client(producer as u64) else {
        return Ok(None);
    };
    let flags = if turn % LINES == LINES - 1 {
        Flags::ACK_TXN
    } else {
        Flags::CONTINUE_TXN
    };
    let parts = Parts {
        producer: id,
        clock: MsgClock::new(turn as u64 + 1),
        flags,
    };
    let key = Blob::of(alloc, b"key")?;
    let value = Blob::of(alloc, b"1")?;
    Ok(Message::new(parts, key, value))
}

/// Feeds the text to the sequencer, and answers how many messages that releases. The text is empty then.
fn feed(sequencer: &mut Sequencer, text: &mut Blob) -> Result<u64, NoMemory> {
    let at = sequencer.at();
    if at > MOST || text.len() as u64 > MOST {
        return Ok(0);
    }
    sequencer.feed(at, text.as_slice())?;
    text.truncate(0);
    for released in 0..u64::MAX {
        if sequencer.take_released().is_none() {
            return Ok(released);
        }
    }
    Ok(u64::MAX)
}

/// Feeds so many lines of producers that take turns, in pieces, to a sequencer. Answers how many messages it released.
pub fn feed_all(alloc: Global, count: u32) -> Result<u64, NoMemory> {
    let mut sequencer = Sequencer::new(alloc, 0);
    let mut text = Blob::new(alloc);
    let mut released = 0u64;
    for i in 0..count {
        if let Some(message) = message(alloc, i % PRODUCERS, i / PRODUCERS)? {
            let line = print_line(alloc, &message)?;
            text.append(line.as_slice())?;
        }
        if text.len() >= PIECE {
            released = released.saturating_add(feed(&mut sequencer, &mut text)?);
        }
    }
    let last = feed(&mut sequencer, &mut text)?;
    Ok(released.saturating_add(last))
}
