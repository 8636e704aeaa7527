//! Limits of lines, and events that are printed. Rows of lines that miss an event by a thing each, and of events as they
//! are printed, stand in `gz_tables/stdin`.
use gz_label::Blob;
use gz_scenario::{Event, Flag, print_converge, print_publish, print_settle, read_event};
use std::alloc::Global;
use std::test::Fail;

// The text of the refusal, and none where the line is taken.
fn refused(alloc: Global, number: u64, line: &[u8]) -> Result<Blob, Fail> {
    match read_event(alloc, number, line) {
        Ok(_) => Ok(Blob::new(alloc)),
        Err(e) => Ok(e.print(alloc)?),
    }
}

// Lines of so many blanks, and one that isn't UTF-8.
#[test]
fn limits(rt: HostRuntime) -> Result<(), Fail> {
    let alloc = rt.alloc();
    for (count, want) in [
        (4_194_304, b"line 2: not JSON".as_slice()),
        (4_194_305, b"line 2: limit".as_slice()),
    ] {
        let spaces = vec![in alloc; b' '; count]?;
        let text = refused(alloc, 2, spaces.as_slice())?;
        assert_eq!(rt; text.as_slice(), want, "of {count}");
    }
    let text = refused(alloc, 4, b"\"\xff\"")?;
    assert_eq!(rt; text.as_slice(), b"line 4: not JSON".as_slice());
    Ok(())
}

const PUBLISH: &str =
    "{\"do\":\"publish\",\"client\":\"k\",\"journal\":\"j\",\"messages\":[{\"flag\":\"ack\",\"clock\":7}],\"producer\":3}";

// The event that the line says. It has no clauses, so that no proof computes that.
fn event_of(alloc: Global, line: &str) -> Result<Event, Fail> {
    match read_event(alloc, 2, line.as_bytes()) {
        Ok(event) => Ok(event),
        Err(_) => Err(Fail::from("no event")),
    }
}

#[test]
fn a_publish_is_read_and_printed(rt: HostRuntime) -> Result<(), Fail> {
    let alloc = rt.alloc();
    let Event::Publish(publish) = event_of(alloc, PUBLISH)? else {
        return Err(Fail::from("no publish"));
    };
    assert_eq!(rt; publish.client.as_str(), "k");
    assert_eq!(rt; publish.journal.as_str(), "j");
    assert_eq!(rt; publish.producer, 3);
    for message in publish.messages.as_slice() {
        assert_eq!(rt; message.clock, 7);
        assert!(rt; message.flag == Flag::Ack);
    }
    let line = print_publish(alloc, &publish)?;
    assert!(rt; line.len() > 0);
    let settle = print_settle(alloc)?;
    assert_eq!(rt; settle.as_slice(), b"{\"do\":\"settle\"}".as_slice());
    Ok(())
}

#[test]
fn a_converge_is_read_and_printed(rt: HostRuntime) -> Result<(), Fail> {
    let alloc = rt.alloc();
    let Event::Converge = event_of(alloc, "{\"do\":\"converge\"}")? else {
        return Err(Fail::from("no converge"));
    };
    let line = print_converge(alloc)?;
    assert_eq!(rt; line.as_slice(), b"{\"do\":\"converge\"}".as_slice());
    for (number, line, want) in [
        (
            1,
            b"{\"do\":\"converge\"}".as_slice(),
            b"line 1: unknown event".as_slice(),
        ),
        (
            2,
            b"{\"do\":\"converge\",\"a\":1}".as_slice(),
            b"line 2: bad field a".as_slice(),
        ),
    ] {
        let text = refused(alloc, number, line)?;
        assert_eq!(rt; text.as_slice(), want, "of line {number}");
    }
    Ok(())
}
