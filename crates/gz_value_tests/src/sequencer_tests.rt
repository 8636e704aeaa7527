// A text of three producers in which lines stand again: fed in pieces, and resumed at each of its lines.

use gz_frame::{Message, print_line};
use gz_label::Blob;
use gz_sequencer::{Sequencer, SourcePoint};
use gz_uuid::{Flags, MsgClock, Parts, ProducerId};
use std::alloc::Global;
use std::process::Abort;
use std::test::Fail;

// The producer, the clock and the flags of each line. The keys are the letters from `a` on.
const ROWS: [(u64, u64, u16); 12] = [
    (1, 1, 0),
    (2, 5, 1),
    (1, 2, 0),
    (3, 1, 0),
    (1, 2, 0),
    (1, 1, 0),
    (2, 5, 1),
    (1, 2, 2),
    (1, 2, 0),
    (1, 2, 2),
    (2, 6, 1),
    (3, 1, 2),
];

// The keys of what is released, in order, by hand.
const RELEASED: &[u8] = b"backd";

fn line(alloc: Global, row: (u64, u64, u16), letter: u8) -> Result<Blob, Fail> {
    let (producer, clock, flags) = row;
    let parts = Parts {
        producer: ProducerId::client(producer).ok_or("producer")?,
        clock: MsgClock::new(clock),
        flags: Flags::new(flags).ok_or("flags")?,
    };
    let key = Blob::of(alloc, &[letter])?;
    let message = Message::new(parts, key, Blob::new(alloc)).ok_or("message")?;
    let line = print_line(alloc, &message)?;
    Ok(line)
}

fn lines(alloc: Global) -> Result<Vec<Blob>, Fail> {
    let mut lines = Vec::new(alloc);
    let mut letter = b'a';
    for row in ROWS {
        let line = line(alloc, row, letter)?;
        lines.push(line)?;
        letter = letter.wrapping_add(1);
    }
    Ok(lines)
}

fn joined(alloc: Global, lines: &[Blob]) -> Result<Blob, Fail> {
    let mut text = Blob::new(alloc);
    for line in lines {
        text.append(line.as_slice())?;
    }
    Ok(text)
}

// Feeds the bytes, and puts the keys of what is released at the end.
fn feed(
    rt: &impl Abort,
    sequencer: &mut Sequencer,
    bytes: &[u8],
    keys: &mut Blob,
) -> Result<(), Fail> {
    let at = sequencer.at();
    assert!(rt; at < 1_000_000 && bytes.len() < 1_000_000);
    sequencer.feed(at, bytes)?;
    for _ in 0..20 {
        if let Some(message) = sequencer.take_released() {
            keys.append(message.key().as_bytes())?;
        }
    }
    Ok(())
}

// Feeds the lines of a text from the offset that the sequencer wants on.
fn feed_lines(
    rt: &impl Abort,
    sequencer: &mut Sequencer,
    lines: &[Blob],
    keys: &mut Blob,
) -> Result<(), Fail> {
    let mut begin = 0u64;
    for line in lines {
        if begin == sequencer.at() {
            feed(rt, sequencer, line.as_slice(), keys)?;
        }
        begin = begin.saturating_add(line.len() as u64);
    }
    Ok(())
}

// What is released of the text in pieces of so many bytes.
fn in_pieces_of(rt: &impl Abort, alloc: Global, text: &[u8], size: usize) -> Result<Blob, Fail> {
    let mut keys = Blob::new(alloc);
    let mut sequencer = Sequencer::new(alloc, 100);
    for piece in text.chunks(size.max(1)) {
        feed(rt, &mut sequencer, piece, &mut keys)?;
    }
    Ok(keys)
}

// What is released of the prefix of the text, and of the text by a sequencer that goes on from the prefix's checkpoint.
fn resumed_behind(
    rt: &impl Abort,
    alloc: Global,
    prefix: &[Blob],
    lines: &[Blob],
) -> Result<Blob, Fail> {
    let mut keys = Blob::new(alloc);
    let mut first = Sequencer::resume(alloc, &SourcePoint::new(alloc, 0))?;
    feed_lines(rt, &mut first, prefix, &mut keys)?;
    let point = first.checkpoint()?;
    let mut second = Sequencer::resume(alloc, &point)?;
    feed_lines(rt, &mut second, lines, &mut keys)?;
    Ok(keys)
}

#[test]
fn in_pieces(rt: HostRuntime) -> Result<(), Fail> {
    let alloc = rt.alloc();
    let lines = lines(alloc)?;
    let text = joined(alloc, lines.as_slice())?;
    for size in [1, 7, 70, 4096] {
        let keys = in_pieces_of(&rt, alloc, text.as_slice(), size)?;
        assert_eq!(rt; keys.as_slice(), RELEASED, "in pieces of {size}");
    }
    Ok(())
}

#[test]
fn resumed_at_each_line(rt: HostRuntime) -> Result<(), Fail> {
    let alloc = rt.alloc();
    let lines = lines(alloc)?;
    for cut in 0..lines.len() {
        let (prefix, _rest) = lines.as_slice().split_at(cut);
        let keys = resumed_behind(&rt, alloc, prefix, lines.as_slice())?;
        assert_eq!(rt; keys.as_slice(), RELEASED, "behind {cut} lines");
    }
    Ok(())
}
