// Lines that are messages, and lines that miss it by one thing.

use gz_frame::{Message, print_line, read_line};
use gz_label::Blob;
use std::alloc::Global;
use std::test::Fail;

const LINE: &str =
    "{\"key\":\"a\",\"uuid\":\"00000001-0000-1000-8001-030000000001\",\"value\":\"1\"}\n";

// The line above with some bytes at a place taken out, and others put in there.
fn spliced(alloc: Global, at: usize, out: usize, put: &[u8]) -> Result<Blob, Fail> {
    let line = LINE.as_bytes();
    if at > line.len() || out > line.len() - at {
        return Err(Fail::from("no such place"));
    }
    let mut text = Blob::of(alloc, &line[..at])?;
    text.append(put)?;
    text.append(&line[at + out..])?;
    Ok(text)
}

fn read(alloc: Global, at: usize, out: usize, put: &[u8]) -> Result<Option<Message>, Fail> {
    let text = spliced(alloc, at, out, put)?;
    Ok(read_line(alloc, text.as_slice())?)
}

// Each row takes so many bytes at a place out of the line, and puts a text in there.
#[test]
fn lines_that_are_no_messages(rt: HostRuntime) -> Result<(), Fail> {
    let alloc = rt.alloc();
    for (at, out, put) in [
        (0, 1, ""),
        (0, 1, "["),
        (68, 1, ""),
        (69, 1, ""),
        (69, 1, "\n\n"),
        (69, 1, "\n "),
        (0, 0, "\n"),
        (10, 1, ",\n"),
        (1, 10, ""),
        (11, 46, ""),
        (56, 12, ""),
        (68, 0, ",\"x\":\"\""),
        (2, 3, "Key"),
        (2, 3, "ke"),
        (12, 4, "UUID"),
        (58, 5, "values"),
        (7, 3, "1"),
        (7, 3, "null"),
        (7, 3, "[\"a\"]"),
        (7, 3, "{}"),
        (7, 3, "true"),
        (65, 3, "1"),
        (65, 3, "null"),
        (65, 3, "[]"),
        (18, 38, "1"),
        (18, 38, "null"),
        (18, 38, "\"\""),
        (19, 1, ""),
        (19, 0, "0"),
        (19, 1, "g"),
        (27, 1, "0"),
        (27, 1, ""),
        (19, 0, "{"),
        (33, 1, "4"),
        (33, 1, "0"),
        (38, 1, "0"),
        (38, 1, "c"),
        (44, 1, "2"),
        (41, 1, "3"),
        (40, 1, "1"),
        (39, 1, "1"),
        (9, 1, ""),
        (6, 1, ""),
        (10, 1, ""),
        (10, 1, ",,"),
        (68, 0, ","),
        (8, 1, "\t"),
        (8, 1, "\\x"),
        (68, 1, "} x"),
    ] {
        let message = read(alloc, at, out, put.as_bytes())?;
        assert!(rt; message.is_none(), "{put} at {at}");
    }
    let invalid = read(alloc, 8, 1, &[0xff])?;
    assert!(rt; invalid.is_none());
    Ok(())
}

// Rows of the same kind, each with the key that is read.
#[test]
fn lines_that_are_messages(rt: HostRuntime) -> Result<(), Fail> {
    let alloc = rt.alloc();
    for (at, out, put, key) in [
        (0, 0, "", "a"),
        (0, 0, " ", "a"),
        (69, 0, "\r", "a"),
        (10, 1, " ,\t", "a"),
        (8, 1, "", ""),
        (8, 1, "\\u0062", "b"),
        (66, 1, "", "a"),
        (1, 0, "\"key\":\"b\",", "a"),
        (11, 0, "\"key\":\"b\",", "b"),
        (19, 1, "A", "a"),
        (18, 38, "\"{00000001-0000-1000-8001-030000000001}\"", "a"),
        (
            18,
            38,
            "\"urn:uuid:00000001-0000-1000-8001-030000000001\"",
            "a",
        ),
        (18, 38, "\"00000001000010008001030000000001\"", "a"),
        (41, 1, "0", "a"),
        (41, 1, "2", "a"),
    ] {
        let message = read(alloc, at, out, put.as_bytes())?.ok_or("no message")?;
        assert_eq!(rt; message.key(), key, "{put} at {at}");
    }
    Ok(())
}

// Each row puts a letter so many times at a place.
#[test]
fn lines_at_their_limits(rt: HostRuntime) -> Result<(), Fail> {
    let alloc = rt.alloc();
    for (at, letter, times, lawful) in [
        (8, b'b', 255, true),
        (8, b'b', 256, false),
        (66, b'b', 4095, true),
        (66, b'b', 4096, false),
        (0, b' ', 65_466, true),
        (0, b' ', 65_467, false),
    ] {
        let letters = vec![in alloc; letter; times]?;
        let message = read(alloc, at, 0, letters.as_slice())?;
        assert_eq!(rt; message.is_some(), lawful, "{times} at {at}");
    }
    Ok(())
}

// What is read is printed as the line that it was read from.
#[test]
fn there_and_back(rt: HostRuntime) -> Result<(), Fail> {
    let alloc = rt.alloc();
    let message = read_line(alloc, LINE.as_bytes())?.ok_or("no message")?;
    assert_eq!(rt; message.value(), "1");
    let line = print_line(alloc, &message)?;
    assert_eq!(rt; line.as_slice(), LINE.as_bytes());
    Ok(())
}
