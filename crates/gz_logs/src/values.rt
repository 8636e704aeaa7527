//! What is loaded, as rows have it: the state, each source as journal, offset and producers, each of these as id, `ack`
//! and `pending`, and each acknowledgement as journal and line.

use gz_app::state_value;
use gz_label::NoMemory;
use gz_sequencer::{ProducerMark, SourcePoint};
use gz_store::{Intent, Source, Store};
use gz_uuid::ProducerId;
use serde_json::{Map, Value};
use std::alloc::Global;

/// Puts a member of this name into the object.
pub fn put(
    alloc: Global,
    members: &mut Map<String, Value>,
    name: &str,
    value: Value,
) -> Result<(), NoMemory> {
    members.insert(String::from_str(alloc, name)?, value)?;
    Ok(())
}

/// A text.
pub fn text(alloc: Global, content: &str) -> Result<Value, NoMemory> {
    Ok(Value::try_from_str(alloc, content)?)
}

/// The text of the bytes, or null where they aren't UTF-8.
pub fn text_of(alloc: Global, content: &[u8]) -> Result<Value, NoMemory> {
    match str::from_utf8(content) {
        Ok(valid) => text(alloc, valid),
        Err(_) => Ok(Value::Null),
    }
}

/// Bytes in hexadecimal.
pub fn bytes(alloc: Global, content: &[u8]) -> Result<Value, NoMemory> {
    let digits = hex::encode(alloc, content)?;
    Ok(Value::from(digits))
}

/// A number, or null.
pub fn optional(number: Option<u64>) -> Value {
    match number {
        None => Value::Null,
        Some(number) => Value::from(number),
    }
}

/// An array of two values.
pub fn pair(alloc: Global, first: Value, second: Value) -> Result<Value, NoMemory> {
    let mut values = Vec::new(alloc);
    values.push(first)?;
    values.push(second)?;
    Ok(Value::Array(values))
}

/// An array of three values.
fn triple(alloc: Global, first: Value, second: Value, third: Value) -> Result<Value, NoMemory> {
    let mut values = Vec::new(alloc);
    values.push(first)?;
    values.push(second)?;
    values.push(third)?;
    Ok(Value::Array(values))
}

fn intent(alloc: Global, one: &Intent) -> Result<Value, NoMemory> {
    let journal = text(alloc, one.journal.as_str())?;
    let line = text(alloc, one.line.as_str())?;
    pair(alloc, journal, line)
}

fn intents(alloc: Global, items: &[Intent]) -> Result<Value, NoMemory> {
    let mut values = Vec::new(alloc);
    for item in items {
        values.push(intent(alloc, item)?)?;
    }
    Ok(Value::Array(values))
}

fn producer(alloc: Global, id: ProducerId, mark: &ProducerMark) -> Result<Value, NoMemory> {
    let id = bytes(alloc, &id.octets())?;
    triple(alloc, id, optional(mark.ack), optional(mark.pending))
}

fn producers(alloc: Global, point: &SourcePoint) -> Result<Value, NoMemory> {
    let mut values = Vec::new(alloc);
    for (id, mark) in point.producers().iter() {
        values.push(producer(alloc, *id, mark)?)?;
    }
    Ok(Value::Array(values))
}

fn source(alloc: Global, one: &Source) -> Result<Value, NoMemory> {
    let journal = text(alloc, one.journal.as_str())?;
    let producers = producers(alloc, &one.point)?;
    triple(alloc, journal, Value::from(one.point.offset()), producers)
}

fn sources(alloc: Global, items: &[Source]) -> Result<Value, NoMemory> {
    let mut values = Vec::new(alloc);
    for item in items {
        values.push(source(alloc, item)?)?;
    }
    Ok(Value::Array(values))
}

/// A commit.
pub fn store(alloc: Global, one: &Store) -> Result<Value, NoMemory> {
    let mut members = Map::new(alloc);
    let intents = intents(alloc, one.checkpoint.intents.as_slice())?;
    put(alloc, &mut members, "intents", intents)?;
    let sources = sources(alloc, one.checkpoint.sources.as_slice())?;
    put(alloc, &mut members, "sources", sources)?;
    let state = state_value(alloc, &one.state)?;
    put(alloc, &mut members, "state", state)?;
    Ok(Value::from(members))
}
