// The memory that reading a message takes is bounded by its bytes, whatever its counts say.

use gz_spelling::{WireError, decode};
use std::alloc::Global;
use std::fs;
use std::test::Fail;

// The most by which a process may grow over a body of at most a megabyte, in kibibytes.
const MOST: u64 = 65_536;

/// The most memory that the process has had at once, in kibibytes.
fn peak(rt: &HostRuntime) -> Result<u64, Fail> {
    let status = fs::read_to_string(rt, "/proc/self/status")?;
    for line in status.lines() {
        if let Some(size) = line.strip_prefix("VmPeak:") {
            let digits = size.trim().trim_end_matches(" kB");
            return Ok(digits.parse::<u64>()?);
        }
    }
    Err(Fail::from("no peak"))
}

/// A message from `b1` with this tag: zeros, a count, and more zeros.
fn counted(
    alloc: Global,
    tag: u8,
    before: usize,
    count: u32,
    behind: usize,
) -> Result<Vec<u8>, Fail> {
    let mut body = vec![in alloc; 0, 2, 98, 49, tag]?;
    let zeros = vec![in alloc; 0; before]?;
    body.extend_from_slice(zeros.as_slice())?;
    body.extend_from_slice(count.to_be_bytes().as_slice())?;
    let zeros = vec![in alloc; 0; behind]?;
    body.extend_from_slice(zeros.as_slice())?;
    let len = u32::try_from(body.len())?;
    let mut bytes = Vec::from_slice(alloc, len.to_le_bytes().as_slice())?;
    bytes.append(&mut body)?;
    Ok(bytes)
}

/// Why the bytes are refused. It has no clause, so that no proof computes a row.
fn refusal(alloc: Global, bytes: &[u8]) -> Option<WireError> {
    match decode(alloc, bytes) {
        Ok(_) => None,
        Err(e) => Some(e),
    }
}

#[test]
fn counts_take_no_memory(rt: HostRuntime) -> Result<(), Fail> {
    let alloc = rt.alloc();
    // the tag, the zeros in front of the count, and the field that the count belongs to: compares, writes, changes, a
    // content, images, an entry's content, names
    let rows = [
        (1, 8, 2),
        (1, 12, 3),
        (5, 16, 3),
        (6, 8, 2),
        (7, 10, 3),
        (10, 28, 4),
        (11, 20, 3),
        (14, 28, 4),
        (17, 18, 8),
        (18, 44, 8),
        (26, 10, 3),
    ];
    for (tag, before, field) in rows {
        // counts of 2 ^ 28 and of 2 ^ 32 - 1, with ten bytes and with a megabyte behind them
        for (count, behind) in [(268_435_456, 10), (u32::MAX, 10), (u32::MAX, 1_000_000)] {
            let bytes = counted(alloc, tag, before, count, behind)?;
            let first = peak(&rt)?;
            let answer = refusal(alloc, bytes.as_slice());
            let grown = peak(&rt)?.saturating_sub(first);
            assert_eq!(rt;
                answer,
                Some(WireError::BadField { tag, field }),
                "{tag} {count}"
            );
            assert!(rt; grown < MOST, "{tag} {count} {behind}: {grown} KiB");
        }
    }
    Ok(())
}
