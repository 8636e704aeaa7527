// What the command answers and writes.

use gz_base::{Exit, MemSink, MemSource};
use gz_ctl::gazctl;
use gz_label::Blob;
use std::alloc::Global;
use std::test::Fail;

const SPECS: &str =
    "{\"do\":\"specs\",\"journals\":[{\"name\":\"out\",\"labels\":{\"content-type\":[\"application/x-ndjson\"]}},{\"name\":\"recovery/s1\",\"labels\":{\"content-type\":[\"application/x-gazette-recoverylog\"]}},{\"name\":\"src/a\",\"labels\":{\"content-type\":[\"application/x-ndjson\"]}}],\"shards\":[{\"id\":\"s1\",\"sources\":[{\"journal\":\"src/a\"}],\"recovery_log_prefix\":\"recovery\",\"labels\":{\"app\":[\"count\"],\"output\":[\"out\"]}}],\"brokers\":[{\"id\":\"b1\",\"zone\":\"z1\",\"limit\":16}],\"consumers\":[{\"id\":\"c1\",\"zone\":\"z1\",\"limit\":4}]}\n";

const RUN: &str =
    "{\"do\":\"settle\"}\n{\"do\":\"publish\",\"client\":\"k1\",\"journal\":\"src/a\",\"messages\":[{\"flag\":\"outside\",\"clock\":16,\"key\":\"a\",\"value\":\"1\"},{\"flag\":\"outside\",\"clock\":17,\"key\":\"b\",\"value\":\"1\"},{\"flag\":\"outside\",\"clock\":18,\"key\":\"a\",\"value\":\"1\"}]}\n{\"do\":\"settle\"}";

const REPORT: &str =
    "reply 3 k1 ok 0 210\njournal out 278 3 -\njournal src/a 210 3 -\nshard s1 1 3 caught {\"a\":2,\"b\":1}\n";

const EMPTY_REPORT: &str = "journal out 0 0 -\njournal src/a 0 0 -\nshard s1 0 0 caught {}\n";

const USAGE: &str = "usage: gazette replay|storm|attach-uuids|journals|shards|serve\n";

const SETTLE: &str = "{\"do\":\"settle\"}";

// How a run of the words over the input ends, and what it wrote. These calls of the source and the sink fail.
fn run(
    alloc: Global,
    words: &[&str],
    text: Blob,
    reads: Vec<u64>,
    writes: Vec<u64>,
) -> Result<(Exit, Blob), Fail> {
    let mut given = Vec::new(alloc);
    for word in words {
        given.push(String::from_str(alloc, word)?)?;
    }
    let mut input = MemSource::new(text, reads);
    let mut output = MemSink::new(Blob::new(alloc), writes);
    let exit = gazctl(alloc, given.as_slice(), &mut input, &mut output);
    let wrote = Blob::of(alloc, output.as_slice())?;
    Ok((exit, wrote))
}

fn joined(alloc: Global, first: &str, rest: &str) -> Result<Blob, Fail> {
    let mut text = Blob::of(alloc, first.as_bytes())?;
    text.append(rest.as_bytes())?;
    Ok(text)
}

#[test]
fn rows(rt: HostRuntime) -> Result<(), Fail> {
    let alloc = rt.alloc();
    let replays: &[&str] = &["replay", "-"];
    for (words, first, rest, want, exit) in [
        (replays, SPECS, RUN, REPORT, Exit::Done),
        (replays, "", "", "", Exit::Done),
        (replays, SPECS, "", EMPTY_REPORT, Exit::Done),
        (replays, "", "\n", "line 1: not JSON\n", Exit::BadInput),
        (replays, RUN, "", "line 1: unknown event\n", Exit::BadInput),
        (
            replays,
            SPECS,
            SPECS,
            "line 2: unknown event\n",
            Exit::BadInput,
        ),
        (
            replays,
            SPECS,
            "{\"do\":\"settle\"}\n\n",
            "line 3: not JSON\n",
            Exit::BadInput,
        ),
        (
            replays,
            SPECS,
            "{\"do\":\"settle\",\"a\":1}",
            "line 2: bad field a\n",
            Exit::BadInput,
        ),
        (
            replays,
            SPECS,
            "{\"do\":\"drain\"}",
            "line 2: unknown event\n",
            Exit::BadInput,
        ),
        (&[], SPECS, RUN, USAGE, Exit::Usage),
        (&["replay"], SPECS, RUN, USAGE, Exit::Usage),
        (&["replay", "x"], SPECS, RUN, USAGE, Exit::Usage),
        (&["Replay", "-"], SPECS, RUN, USAGE, Exit::Usage),
        (&["replay", "-", "-"], SPECS, RUN, USAGE, Exit::Usage),
    ] {
        let text = joined(alloc, first, rest)?;
        let (got, wrote) = run(alloc, words, text, Vec::new(alloc), Vec::new(alloc))?;
        assert_eq!(rt; wrote.as_slice(), want.as_bytes(), "at {rest:?}");
        assert_eq!(rt; got, exit, "at {rest:?}");
    }
    Ok(())
}

#[test]
fn calls_that_fail(rt: HostRuntime) -> Result<(), Fail> {
    let alloc = rt.alloc();
    let words: &[&str] = &["replay", "-"];
    // The input is one block. The source is called for it, behind the last line, which has no newline, and once
    // more at the end; the sink is called once.
    for (read, write, want, exit) in [
        (0, 9, "read fault\n", Exit::ReadFault),
        (1, 9, "read fault\n", Exit::ReadFault),
        (2, 9, "read fault\n", Exit::ReadFault),
        (3, 9, REPORT, Exit::Done),
        (9, 0, "", Exit::WriteFault),
        (9, 1, REPORT, Exit::Done),
        (0, 0, "", Exit::WriteFault),
    ] {
        let text = joined(alloc, SPECS, RUN)?;
        let (got, wrote) = run(
            alloc,
            words,
            text,
            vec![in alloc; read]?,
            vec![in alloc; write]?,
        )?;
        assert_eq!(rt; wrote.as_slice(), want.as_bytes(), "at {read} and {write}");
        assert_eq!(rt; got, exit, "at {read} and {write}");
    }
    Ok(())
}

const BLANKS: [u8; 4096] = [b' '; 4096];

// The line with so many bytes, its newline among them: blanks stand behind the text.
fn padded(text: &mut Blob, line: &str, bytes: usize) -> Result<(), Fail> {
    let blanks = bytes.saturating_sub(line.len().saturating_add(1));
    text.append(line.as_bytes())?;
    for _ in 0..blanks / 4096 {
        text.append(&BLANKS)?;
    }
    text.append(&BLANKS[..blanks % 4096])?;
    text.append(b"\n")?;
    Ok(())
}

// So many lines of so many bytes each, 0 standing for no blanks, and one line more with so many bytes.
fn run_of(alloc: Global, lines: usize, bytes: usize, last: usize) -> Result<(Exit, Blob), Fail> {
    let mut text = Blob::new(alloc);
    padded(&mut text, SPECS.trim_end(), bytes)?;
    for _ in 1..lines {
        padded(&mut text, SETTLE, bytes)?;
    }
    padded(&mut text, SETTLE, last)?;
    run(
        alloc,
        &["replay", "-"],
        text,
        Vec::new(alloc),
        Vec::new(alloc),
    )
}

#[test]
fn many_lines(rt: HostRuntime) -> Result<(), Fail> {
    let alloc = rt.alloc();
    for (lines, want, exit) in [
        (65_535, EMPTY_REPORT, Exit::Done),
        (65_536, "line 65537: limit\n", Exit::BadInput),
    ] {
        let (got, wrote) = run_of(alloc, lines, 0, 0)?;
        assert_eq!(rt; wrote.as_slice(), want.as_bytes(), "at {lines}");
        assert_eq!(rt; got, exit, "at {lines}");
    }
    Ok(())
}

#[test]
fn long_lines(rt: HostRuntime) -> Result<(), Fail> {
    let alloc = rt.alloc();
    for (last, want, exit) in [
        (4_194_304, EMPTY_REPORT, Exit::Done),
        (4_194_305, "line 2: limit\n", Exit::BadInput),
    ] {
        let (got, wrote) = run_of(alloc, 1, 0, last)?;
        assert_eq!(rt; wrote.as_slice(), want.as_bytes(), "at {last}");
        assert_eq!(rt; got, exit, "at {last}");
    }
    Ok(())
}

// 32 lines of 4,194,304 bytes are as many bytes as an input may have.
#[test]
fn a_long_input(rt: HostRuntime) -> Result<(), Fail> {
    let alloc = rt.alloc();
    let (got, wrote) = run_of(alloc, 31, 4_194_304, 4_194_304)?;
    assert_eq!(rt; wrote.as_slice(), EMPTY_REPORT.as_bytes());
    assert_eq!(rt; got, Exit::Done);
    Ok(())
}

#[test]
fn too_long_an_input(rt: HostRuntime) -> Result<(), Fail> {
    let alloc = rt.alloc();
    let (got, wrote) = run_of(alloc, 32, 4_194_304, 0)?;
    assert_eq!(rt; wrote.as_slice(), "line 33: limit\n".as_bytes());
    assert_eq!(rt; got, Exit::BadInput);
    Ok(())
}
