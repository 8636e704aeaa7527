// Bytes that come in pieces, calls that fail, and the statuses by name.

use gz_base::{
    Exit, Failed, LineError, LineReader, MemSink, MemSource, Source, StdSink, StdSource, write_all,
};
use gz_label::Blob;
use std::alloc::Global;
use std::io;
use std::test::Fail;

// A reader that gives a few bytes at once, and fails once where it has given `cut` of them.
#[derive(Drop)]
struct Pieces {
    text: Blob,
    at: usize,
    step: usize,
    cut: Option<usize>,
}

impl io::Read for Pieces {
    fn read(&mut self, buf: &mut [u8]) -> io::Result<usize> {
        if self.cut == Some(self.at) {
            self.cut = None;
            return Err(io::Error::from(io::ErrorKind::BrokenPipe));
        }
        let end = self.cut.unwrap_or(self.text.len());
        let rest = self.text.as_slice().get(self.at..end).unwrap_or(&[]);
        let n = buf.len().min(rest.len()).min(self.step);
        buf[..n].copy_from_slice(&rest[..n]);
        self.at = self.at.saturating_add(n);
        Ok(n)
    }
}

// The lines, each with a bar behind it, and then how they end: a dot, F after a fault, L after a long line.
fn next_line(alloc: Global, reader: Pieces, limit: usize) -> Result<Blob, Fail> {
    let mut input = StdSource::new(reader);
    let mut lines = LineReader::new(alloc)?;
    let mut out = Blob::new(alloc);
    for _ in 0..9 {
        match lines.next_line(alloc, &mut input, limit) {
            Ok(Some(line)) => {
                out.append(line.as_slice())?;
                out.append(b"|")?;
            }
            Ok(None) => {
                out.append(b".")?;
                return Ok(out);
            }
            Err(LineError::Fault) => {
                out.append(b"F")?;
                return Ok(out);
            }
            Err(LineError::TooLong) => {
                out.append(b"L")?;
                return Ok(out);
            }
            Err(e) => return Err(Fail::from(e)),
        }
    }
    Ok(out)
}

#[test]
fn lines(rt: HostRuntime) -> Result<(), Fail> {
    let alloc = rt.alloc();
    for (text, limit, cut, want) in [
        ("", 9, None, "."),
        ("a\nbc\n", 9, None, "a\n|bc\n|."),
        ("a\nbc", 9, None, "a\n|bc|."),
        ("\n\nx", 0, None, "\n|\n|L"),
        ("abc\nabcd", 4, None, "abc\n|abcd|."),
        ("abc\nabcde", 4, None, "abc\n|L"),
        ("a\nbcd\n", 9, Some(0), "F"),
        ("a\nbcd\n", 9, Some(4), "a\n|F"),
        ("a\nbcd\n", 9, Some(6), "a\n|bcd\n|F"),
    ] {
        for step in [1, 2, 9] {
            let reader = Pieces {
                text: Blob::of(alloc, text.as_bytes())?,
                at: 0,
                step,
                cut,
            };
            let got = next_line(alloc, reader, limit)?;
            assert_eq!(rt;
                got.as_slice(),
                want.as_bytes(),
                "of {text:?}, {step} at once"
            );
        }
    }
    Ok(())
}

#[test]
fn calls_that_fail(rt: HostRuntime) -> Result<(), Fail> {
    let alloc = rt.alloc();
    let mut source = MemSource::new(Blob::of(alloc, b"abc")?, vec![in alloc; 1]?);
    let mut buffer = [0; 2];
    for (read, bytes) in [
        (Ok(2), b"ab"),
        (Err(Failed), b"ab"),
        (Ok(1), b"cb"),
        (Ok(0), b"cb"),
    ] {
        assert_eq!(rt; source.read(&mut buffer), read);
        assert_eq!(rt; buffer.as_slice(), bytes.as_slice());
    }
    let mut sink = MemSink::new(Blob::of(alloc, b"-")?, vec![in alloc; 1]?);
    assert_eq!(rt; write_all(&mut sink, b"ab"), Ok(()));
    assert_eq!(rt; write_all(&mut sink, b"cd"), Err(Failed));
    assert_eq!(rt; write_all(&mut sink, b""), Ok(()));
    assert_eq!(rt; write_all(&mut sink, b"e"), Ok(()));
    assert_eq!(rt; sink.as_slice(), b"-abe".as_slice());
    Ok(())
}

#[test]
fn readers_and_writers(rt: HostRuntime) -> Result<(), Fail> {
    let alloc = rt.alloc();
    let reader = Pieces {
        text: Blob::of(alloc, b"abc")?,
        at: 0,
        step: 2,
        cut: Some(2),
    };
    let mut source = StdSource::new(reader);
    let mut buffer = [0; 4];
    for read in [Ok(2), Err(Failed), Ok(1), Ok(0)] {
        assert_eq!(rt; source.read(&mut buffer), read);
    }
    let mut held = Vec::new(alloc);
    let mut sink = StdSink::new(&mut held);
    assert_eq!(rt; write_all(&mut sink, b"ab"), Ok(()));
    assert_eq!(rt; write_all(&mut sink, b"c"), Ok(()));
    assert_eq!(rt; held.as_slice(), b"abc".as_slice());
    let mut room = [0; 2];
    let mut full = StdSink::new(room.as_mut_slice());
    assert_eq!(rt; write_all(&mut full, b"abc"), Err(Failed));
    assert_eq!(rt; room.as_slice(), b"ab".as_slice());
    Ok(())
}

#[test]
fn statuses(rt: HostRuntime) {
    for (exit, status) in [
        (Exit::Done, 0),
        (Exit::Usage, 2),
        (Exit::BadInput, 3),
        (Exit::ReadFault, 4),
        (Exit::WriteFault, 5),
        (Exit::FileFault, 6),
        (Exit::PeerFault, 7),
        (Exit::Refused, 8),
        (Exit::Lost, 9),
        (Exit::NoMemory, 10),
        (Exit::Mismatch, 11),
        (Exit::HistoryFull, 12),
        (Exit::SpawnFault, 13),
        (Exit::BadPeer, 14),
    ] {
        assert_eq!(rt; exit.status(), status);
    }
}
