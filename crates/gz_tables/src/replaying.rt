//! What a replay writes.
use gz_base::MemSource;
use gz_label::{Blob, NoMemory};
use gz_world::{ReplayError, refusal_line, replay};
use std::alloc::Global;

/// The bytes, with this one in place of that one.
fn exchanged(alloc: Global, text: &[u8], old: u8, new: u8) -> Result<Blob, NoMemory> {
    let mut bytes = Vec::new(alloc);
    for byte in text {
        bytes.push(if *byte == old { new } else { *byte })?;
    }
    Ok(Blob::from_vec(bytes))
}

/// What a scenario writes.
fn written(alloc: Global, scenario: Blob) -> Result<Blob, NoMemory> {
    let mut input = MemSource::new(scenario, Vec::new(alloc));
    match replay(alloc, &mut input) {
        Ok(Some(world)) => world.report(alloc),
        Ok(None) => Ok(Blob::new(alloc)),
        Err(ReplayError::Refused(refusal)) => refusal_line(alloc, &refusal),
        Err(_) => Err(NoMemory),
    }
}

/// What a scenario writes whose lines have a tab between each two, with `|` for each newline.
pub fn report_of(alloc: Global, lines: &str) -> Result<String, NoMemory> {
    let scenario = exchanged(alloc, lines.as_bytes(), b'\t', b'\n')?;
    let report = written(alloc, scenario)?;
    let text = exchanged(alloc, report.as_slice(), b'\n', b'|')?;
    Ok(format!(in alloc; "{text}")?)
}
