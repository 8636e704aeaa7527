//! What lines make of a world, and its report. Rows of scenarios with their reports stand in `gz_tables/stdin`, and
//! scenarios by themselves in `examples/`.

use gz_base::MemSource;
use gz_label::Blob;
use gz_world::{ReplayError, refusal_line, replay};
use std::alloc::Global;
use std::test::Fail;

// A journal of any bytes.
const SPECS: &str = "{\"do\":\"specs\",\"journals\":[{\"name\":\"bytes\"}]}\n";

// What a replay of the text writes.
fn replayed(alloc: Global, text: Blob) -> Result<Blob, Fail> {
    let mut input = MemSource::new(text, Vec::new(alloc));
    match replay(alloc, &mut input) {
        Ok(Some(world)) => Ok(world.report(alloc)?),
        Ok(None) => Ok(Blob::new(alloc)),
        Err(ReplayError::Refused(refusal)) => Ok(refusal_line(alloc, &refusal)?),
        Err(e) => Err(e)?,
    }
}

// A message with a value of so many letters. Its line has 68 bytes more.
fn long_message(alloc: Global, letters: usize) -> Result<Blob, Fail> {
    let mut text = Blob::of(alloc, b"{\"flag\":\"outside\",\"clock\":16,\"value\":\"")?;
    for _ in 0..letters {
        text.append(b"x")?;
    }
    text.append(b"\"}")?;
    Ok(text)
}

// Lines of 1,048,576 bytes, 251 of 4,164 and one of 3,412, land; with a byte more they don't.
#[test]
fn long_publishes(rt: HostRuntime) -> Result<(), Fail> {
    let alloc = rt.alloc();
    for (letters, want) in [
        (3344, "reply 2 k1 ok 0 1048576\njournal bytes 1048576 1 -\n"),
        (3345, "reply 2 k1 too large 1048576\njournal bytes 0 0 -\n"),
    ] {
        let mut text = Blob::of(alloc, SPECS.as_bytes())?;
        text.append(b"{\"do\":\"publish\",\"client\":\"k1\",\"journal\":\"bytes\",\"messages\":[")?;
        let long = long_message(alloc, 4096)?;
        for _ in 0..251 {
            text.append(long.as_slice())?;
            text.append(b",")?;
        }
        let last = long_message(alloc, letters)?;
        text.append(last.as_slice())?;
        text.append(b"]}\n")?;
        let got = replayed(alloc, text)?;
        assert_eq!(rt; got.as_slice(), want.as_bytes(), "at {letters}");
    }
    Ok(())
}

#[test]
fn a_line_is_refused(rt: HostRuntime) -> Result<(), Fail> {
    let alloc = rt.alloc();
    let mut text = Blob::of(alloc, SPECS.as_bytes())?;
    text.append(b"{}\n")?;
    let got = replayed(alloc, text)?;
    assert_eq!(rt; got.as_slice(), b"line 2: unknown event\n".as_slice());
    Ok(())
}

#[test]
fn an_empty_input(rt: HostRuntime) -> Result<(), Fail> {
    let alloc = rt.alloc();
    let mut input = MemSource::new(Blob::new(alloc), Vec::new(alloc));
    let world = replay(alloc, &mut input)?;
    assert!(rt; world.is_none());
    let mut failing = MemSource::new(Blob::new(alloc), vec![in alloc; 0]?);
    let got = replay(alloc, &mut failing);
    assert!(rt; matches!(&got, Err(ReplayError::Fault)));
    Ok(())
}
