//! Work with specifications.

use gz_label::{Blob, NoMemory};
use gz_links::{SpecError, read_specs};
use gz_print::print_specs;
use std::alloc::Global;

/// How many sources a shard has.
const SOURCES: u32 = 16;

fn append_journal(alloc: Global, out: &mut Blob, name: &str, kind: &str) -> Result<(), NoMemory> {
    let text = format!(in alloc;
        "{{\"name\":\"{name}\",\"labels\":{{\"content-type\":[\"application/x-{kind}\"]}}}},"
    )?;
    out.append(text.as_bytes())
}

/// The journals of so many shards: two to read, an output and a recovery log each.
fn append_journals(alloc: Global, out: &mut Blob, shards: u32) -> Result<(), NoMemory> {
    for i in 0..shards {
        let even = format!(in alloc; "src/{i}/a")?;
        let odd = format!(in alloc; "src/{i}/b")?;
        let output = format!(in alloc; "out/{i}")?;
        let log = format!(in alloc; "recovery/s{i}")?;
        append_journal(alloc, out, even.as_str(), "ndjson")?;
        append_journal(alloc, out, odd.as_str(), "ndjson")?;
        append_journal(alloc, out, output.as_str(), "ndjson")?;
        append_journal(alloc, out, log.as_str(), "gazette-recoverylog")?;
    }
    Ok(())
}

/// The sources of the shard of this number among so many: what the shard before it emits, and journals of clients.
fn append_sources(alloc: Global, out: &mut Blob, number: u32, shards: u32) -> Result<(), NoMemory> {
    let before = number.saturating_sub(1);
    let first = if number == 0 {
        format!(in alloc; "{{\"journal\":\"src/0/a\"}}")?
    } else {
        format!(in alloc; "{{\"journal\":\"out/{before}\"}}")?
    };
    out.append(first.as_bytes())?;
    for k in 1..SOURCES.min(shards) {
        let place = (number.saturating_add(k)) % shards;
        let more = format!(in alloc; ",{{\"journal\":\"src/{place}/b\",\"min_offset\":{k}}}")?;
        out.append(more.as_bytes())?;
    }
    Ok(())
}

fn append_shard(alloc: Global, out: &mut Blob, number: u32, shards: u32) -> Result<(), NoMemory> {
    let head = format!(in alloc;
        "{{\"id\":\"s{number}\",\"recovery_log_prefix\":\"recovery\",\"labels\":{{\"app\":[\"count\"],\"output\":[\"out/{number}\"]}},\"sources\":["
    )?;
    out.append(head.as_bytes())?;
    append_sources(alloc, out, number, shards)?;
    out.append(b"]},")
}

/// The text without the comma at its end, if there is one.
fn without_comma(alloc: Global, text: &Blob) -> Result<Blob, NoMemory> {
    match text.as_slice() {
        [prefix @ .., b','] => Blob::of(alloc, prefix),
        whole => Blob::of(alloc, whole),
    }
}

/// Specifications of so many shards in a row, each with 16 sources, and four times as many journals.
fn text(alloc: Global, shards: u32) -> Result<Blob, NoMemory> {
    let mut journals = Blob::new(alloc);
    append_journals(alloc, &mut journals, shards)?;
    let mut rows = Blob::new(alloc);
    for number in 0..shards {
        append_shard(alloc, &mut rows, number, shards)?;
    }
    let mut out = Blob::of(alloc, b"{\"journals\":[")?;
    out.append(without_comma(alloc, &journals)?.as_slice())?;
    out.append(b"],\"shards\":[")?;
    out.append(without_comma(alloc, &rows)?.as_slice())?;
    out.append(b"]}")?;
    Ok(out)
}

/// Reads specifications of so many shards, a row in which each reads what the one before emits, prints them, and
/// reads them again. Answers how many bytes were printed, and 0 where they weren't read.
pub fn read_and_print(alloc: Global, shards: u32) -> Result<u64, NoMemory> {
    let text = text(alloc, shards)?;
    let specs = match read_specs(alloc, text.as_slice()) {
        Ok(specs) => specs,
        Err(SpecError::NoMemory) => return Err(NoMemory),
        Err(_) => return Ok(0),
    };
    let printed = print_specs(alloc, &specs)?;
    match read_specs(alloc, printed.as_slice()) {
        Ok(_) => Ok(printed.len() as u64),
        Err(SpecError::NoMemory) => Err(NoMemory),
        Err(_) => Ok(0),
    }
}
