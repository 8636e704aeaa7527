//! The line that a message is.
ghost use Rattle.std.specs.Prelude.{◌≡◌, List, ℕ, IfOk, IfNone, IfSome, Some, map, option_map, option_and_then, true};
ghost use Rattle.serde_json.specs.View.{view};
ghost use Rattle.uuid.specs.Text.{parsed};
ghost use Rattle.gz_frame.specs.Line.{data_of, line_of};
ghost use Rattle.gz_frame.specs.Text.{content_of, has_only_names, text_at, message_with, message_in, message_of, names};
ghost use Rattle.gz_frame.specs.Reading.{IsReadable};

use crate::Message;
use gz_label::{Blob, NoMemory};
use gz_uuid::{build, split};
use serde_json::{Map, Value};
use std::alloc::Global;
use uuid::Uuid;

/// The most bytes of a line, with its newline.
const MAX_LINE: usize = 65_536;

/// The object of a message: its key, its identifier in hyphenated lower case, and its value.
fn value_of(alloc: Global, message: &Message) -> Result<Value, NoMemory>
    ensures object { IfOk result (λ value. view value ≡ data_of message.now) }
    ensures readable { IfOk result (λ value. IsReadable message.now) }
{
    let parts = message.parts();
    let id = build(parts.producer, parts.clock, parts.flags);
    let mut buffer = Uuid::encode_buffer();
    let uuid = id.hyphenated().encode_lower(&mut buffer);
    let mut members = Map::new(alloc);
    members.insert(
        String::from_str(alloc, "key")?,
        Value::try_from_str(alloc, message.key())?,
    )?;
    members.insert(
        String::from_str(alloc, "uuid")?,
        Value::try_from_str(alloc, uuid)?,
    )?;
    members.insert(
        String::from_str(alloc, "value")?,
        Value::try_from_str(alloc, message.value())?,
    )?;
    Ok(Value::from(members))
}

/// The line of a message: compact JSON with the members key, uuid and value, and a newline. It is read back
/// as that message.
#[tactic(auto, using(crate::proofs::Lines::line_reads_back), unfolding(crate::specs::Line::line_of))]
pub fn print_line(alloc: Global, message: &Message) -> Result<Blob, NoMemory>
    ensures text { IfOk result (λ line. line ≡ line_of message.now) }
    ensures reads_back { IfOk result (λ line. message_of line ≡ Some message.now) }
{
    let value = value_of(alloc, message)?;
    let mut line = gz_json::print(alloc, &value)?;
    line.append(b"\n")?;
    Ok(line)
}

/// What stands before the newline, where a newline ends the line and no other one stands in it.
fn content_of(line: &[u8]) -> Option<&[u8]>
    ensures { option_map (λ content. content.now) result ≡ content_of line.now }
{
    'bytes: for i in 0..line.len() {
        if line[i] == b'\n' {
            return if i + 1 == line.len() {
                Some(&line[..i])
            } else {
                None
            };
        }
    }
    None
}

/// Whether the value is an object with no members but key, uuid and value.
fn has_only_names(value: &Value) -> bool
    ensures { result ≡ has_only_names (view value.now) }
{
    match value.as_object() {
        Some(members) => gz_json::first_unknown(members, &["key", "uuid", "value"]).is_none(),
        None => false,
    }
}

/// The text of the member of this name.
fn text_at<'a>(value: &'a Value, name: &str) -> Option<&'a str>
    ensures { option_map (λ text. text.now) result ≡ text_at name.now (view value.now) }
{
    value.get(name).and_then(Value::as_str)
}

/// The identifier that the text is, in any of the forms of its kind.
fn id_of(text: &str) -> Option<Uuid>
    ensures { result ≡ parsed text.now }
{
    match Uuid::parse_str(text) {
        Ok(id) => Some(id),
        Err(_) => None,
    }
}

/// The message of an identifier, a key and a value, where they are those of one. It takes no memory.
fn message_with(id: Uuid, key: Blob, value: Blob) -> Option<Message>
    ensures { result ≡ message_with id key value }
{
    let parts = split(id)?;
    Message::new(parts, key, value)
}

/// The message of an object with exactly the members key, uuid and value, all texts.
fn message_in(alloc: Global, value: &Value) -> Result<Option<Message>, NoMemory>
    ensures { IfOk result (λ message. message ≡ message_in (view value.now)) }
{
    if !has_only_names(value) {
        return Ok(None);
    }
    let Some(key) = text_at(value, "key") else {
        return Ok(None);
    };
    let Some(text) = text_at(value, "value") else {
        return Ok(None);
    };
    let Some(uuid) = text_at(value, "uuid") else {
        return Ok(None);
    };
    let Some(id) = id_of(uuid) else {
        return Ok(None);
    };
    let key = Blob::of(alloc, key.as_bytes())?;
    let text = Blob::of(alloc, text.as_bytes())?;
    Ok(message_with(id, key, text))
}

/// The message that the line is. None exactly where it is no message line: where it is longer than 65,536
/// bytes, its newline isn't its last byte and its only one, what stands before that isn't a JSON object
/// with exactly the members key, uuid and value, all texts, the key or the value is longer than 256 or 4,096
/// bytes, or the uuid isn't the text of an identifier with the flags of CONTINUE, OUTSIDE or ACK.
#[tactic(auto, unfolding(crate::specs::Text::message_of))]
pub fn read_line(alloc: Global, line: &[u8]) -> Result<Option<Message>, NoMemory>
    ensures { IfOk result (λ message. message ≡ message_of line.now) }
{
    if line.len() > MAX_LINE {
        return Ok(None);
    }
    let Some(content) = content_of(line) else {
        return Ok(None);
    };
    let Some(value) = gz_json::parse(alloc, content)? else {
        return Ok(None);
    };
    let message = message_in(alloc, &value)?;
    Ok(message)
}
