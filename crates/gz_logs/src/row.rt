//! Rows, and whether a player comes to the same.

use crate::outcome::row_of;
use gz_label::NoMemory;
use serde_json::Value;
use std::alloc::Global;

/// How many bytes are fed at once. No log has as many as the last number.
const SIZES: [usize; 3] = [1, 7, 1_048_576];

/// The bytes of the digits, or None where they aren't hexadecimal.
fn bytes_of(alloc: Global, digits: &str) -> Result<Option<Vec<u8>>, NoMemory> {
    match hex::decode(alloc, digits.as_bytes()) {
        Ok(bytes) => Ok(Some(bytes)),
        Err(hex::FromHexError::OutOfMemory) => Err(NoMemory),
        Err(_) => Ok(None),
    }
}

/// Whether the two are one value.
fn is_same(alloc: Global, one: &Value, other: &Value) -> Result<bool, NoMemory> {
    let one = one.to_string(alloc)?;
    let other = other.to_string(alloc)?;
    Ok(one.as_str() == other.as_str())
}

/// Whether the log in pieces of this size comes to what the row says.
fn agrees_in(alloc: Global, row: &Value, log: &[u8], size: usize) -> Result<bool, NoMemory> {
    match row_of(alloc, log, size)? {
        Some(outcome) => is_same(alloc, row, &outcome),
        None => Ok(false),
    }
}

/// Whether the log in pieces of each size comes to what the row says.
fn agrees_in_all(alloc: Global, row: &Value, log: &[u8]) -> Result<bool, NoMemory> {
    for size in SIZES {
        if !agrees_in(alloc, row, log, size)? {
            return Ok(false);
        }
    }
    Ok(true)
}

/// Whether the line is a row whose log comes to what it says, in pieces of each size.
pub fn agrees(alloc: Global, line: &[u8]) -> Result<bool, NoMemory> {
    let Some(row) = gz_json::parse(alloc, line)? else {
        return Ok(false);
    };
    let Some(digits) = row.get("log").and_then(Value::as_str) else {
        return Ok(false);
    };
    match bytes_of(alloc, digits)? {
        Some(log) => agrees_in_all(alloc, &row, log.as_slice()),
        None => Ok(false),
    }
}
