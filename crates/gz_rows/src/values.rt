//! The values of fields, as rows have them.

use gz_label::{Blob, Change, Compare, Entry, Image, KeyWrite, Label, Name, NoMemory};
use serde_json::{Map, Value};
use std::alloc::Global;

/// The text of a name.
pub fn text(alloc: Global, name: &Name) -> Result<Value, NoMemory> {
    Ok(Value::try_from_str(alloc, name.as_str())?)
}

/// Bytes in hexadecimal.
pub fn bytes(alloc: Global, content: &Blob) -> Result<Value, NoMemory> {
    let digits = hex::encode(alloc, content.as_slice())?;
    Ok(Value::from(digits))
}

/// A number, or null.
pub fn optional(number: Option<u64>) -> Value {
    match number {
        None => Value::Null,
        Some(number) => Value::from(number),
    }
}

/// An array of two values.
fn pair(alloc: Global, first: Value, second: Value) -> Result<Value, NoMemory> {
    let mut values = Vec::new(alloc);
    values.push(first)?;
    values.push(second)?;
    Ok(Value::Array(values))
}

fn label(alloc: Global, one: &Label) -> Result<Value, NoMemory> {
    pair(alloc, text(alloc, &one.name)?, text(alloc, &one.value)?)
}

/// Labels, each a name and a value.
pub fn labels(alloc: Global, items: &[Label]) -> Result<Value, NoMemory> {
    let mut values = Vec::new(alloc);
    for item in items {
        values.push(label(alloc, item)?)?;
    }
    Ok(Value::Array(values))
}

/// Names.
pub fn names(alloc: Global, items: &[Name]) -> Result<Value, NoMemory> {
    let mut values = Vec::new(alloc);
    for item in items {
        values.push(text(alloc, item)?)?;
    }
    Ok(Value::Array(values))
}

/// An entry: its node, its number, its bytes and its registers.
pub fn entry(alloc: Global, one: &Entry) -> Result<Value, NoMemory> {
    let mut members = Map::new(alloc);
    let node = text(alloc, &one.attempt.node)?;
    members.insert(String::from_str(alloc, "node")?, node)?;
    members.insert(
        String::from_str(alloc, "number")?,
        Value::from(one.attempt.req),
    )?;
    let content = bytes(alloc, &one.bytes)?;
    members.insert(String::from_str(alloc, "bytes")?, content)?;
    let registers = labels(alloc, one.registers.as_slice())?;
    members.insert(String::from_str(alloc, "registers")?, registers)?;
    Ok(Value::from(members))
}

fn entries(alloc: Global, items: &[Entry]) -> Result<Value, NoMemory> {
    let mut values = Vec::new(alloc);
    for item in items {
        values.push(entry(alloc, item)?)?;
    }
    Ok(Value::Array(values))
}

/// An image: its begin, its base, its entries and its head.
pub fn image(alloc: Global, one: &Image) -> Result<Value, NoMemory> {
    let mut members = Map::new(alloc);
    members.insert(String::from_str(alloc, "begin")?, Value::from(one.begin))?;
    let base = labels(alloc, one.base.as_slice())?;
    members.insert(String::from_str(alloc, "base")?, base)?;
    let entries = entries(alloc, one.entries.as_slice())?;
    members.insert(String::from_str(alloc, "entries")?, entries)?;
    members.insert(String::from_str(alloc, "head")?, Value::from(one.head))?;
    Ok(Value::from(members))
}

fn write(alloc: Global, one: &KeyWrite) -> Result<Value, NoMemory> {
    let value = match &one.value {
        None => Value::Null,
        Some(value) => bytes(alloc, value)?,
    };
    pair(alloc, text(alloc, &one.key)?, value)
}

/// Writes, each a key, and its value or null.
pub fn writes(alloc: Global, items: &[KeyWrite]) -> Result<Value, NoMemory> {
    let mut values = Vec::new(alloc);
    for item in items {
        values.push(write(alloc, item)?)?;
    }
    Ok(Value::Array(values))
}

fn compare(alloc: Global, one: &Compare) -> Result<Value, NoMemory> {
    pair(alloc, text(alloc, &one.key)?, Value::from(one.mod_revision))
}

/// Compares, each a key and a revision.
pub fn compares(alloc: Global, items: &[Compare]) -> Result<Value, NoMemory> {
    let mut values = Vec::new(alloc);
    for item in items {
        values.push(compare(alloc, item)?)?;
    }
    Ok(Value::Array(values))
}

fn change(alloc: Global, one: &Change) -> Result<Value, NoMemory> {
    pair(
        alloc,
        Value::from(one.revision),
        writes(alloc, one.writes.as_slice())?,
    )
}

/// Changes, each a revision and writes.
pub fn changes(alloc: Global, items: &[Change]) -> Result<Value, NoMemory> {
    let mut values = Vec::new(alloc);
    for item in items {
        values.push(change(alloc, item)?)?;
    }
    Ok(Value::Array(values))
}
