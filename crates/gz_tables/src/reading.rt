//! What comes of texts: `ok`, or the error as it prints itself.
use gz_fields::FieldError;
use gz_label::NoMemory;
use gz_links::{SpecError, join, read_specs};
use gz_scenario::{print_event, read_event};
use gz_spec::{Specs, read_part};
use std::alloc::Global;

fn ok(alloc: Global) -> Result<String, NoMemory> {
    Ok(String::from_str(alloc, "ok")?)
}

fn field(alloc: Global, error: &FieldError) -> Result<String, NoMemory> {
    Ok(format!(in alloc; "{error}")?)
}

fn spec(alloc: Global, error: &SpecError) -> Result<String, NoMemory> {
    Ok(format!(in alloc; "{error}")?)
}

/// Lists of specifications, each by itself.
pub fn part_of(alloc: Global, text: &str) -> Result<String, NoMemory> {
    match read_part(alloc, text.as_bytes()) {
        Ok(_) => ok(alloc),
        Err(error) => field(alloc, &error),
    }
}

/// Specifications whose shards stand among their journals.
pub fn specs_of(alloc: Global, text: &str) -> Result<String, NoMemory> {
    match read_specs(alloc, text.as_bytes()) {
        Ok(_) => ok(alloc),
        Err(error) => spec(alloc, &error),
    }
}

fn joined(alloc: Global, specs: &Specs, more: &str) -> Result<String, NoMemory> {
    match read_part(alloc, more.as_bytes()) {
        Ok(more) => match join(alloc, specs, &more) {
            Ok(_) => ok(alloc),
            Err(error) => spec(alloc, &error),
        },
        Err(error) => field(alloc, &error),
    }
}

/// Two texts with a tab between them: the second's lists join the first's.
pub fn join_of(alloc: Global, texts: &str) -> Result<String, NoMemory> {
    let Some((first, more)) = texts.split_once('\t') else {
        return Ok(String::from_str(alloc, "one text")?);
    };
    match read_part(alloc, first.as_bytes()) {
        Ok(specs) => joined(alloc, &specs, more),
        Err(error) => field(alloc, &error),
    }
}

/// A scenario's line of this number: its refusal, or the event as it is printed.
pub fn event_of(alloc: Global, number: u64, line: &str) -> Result<String, NoMemory> {
    match read_event(alloc, number, line.as_bytes()) {
        Ok(event) => {
            let printed = print_event(alloc, &event)?;
            Ok(format!(in alloc; "{printed}")?)
        }
        Err(error) => Ok(format!(in alloc; "{error}")?),
    }
}
