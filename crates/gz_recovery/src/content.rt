//! Operations as the contents of frames.
ghost use Rattle.std.specs.Prelude.{◌≡◌, ◌≤◌, IfOk, OnOk, IfSome, Some, length, option_map, string_bytes};
ghost use Rattle.serde_json.specs.Data.{Members, put, string, unsigned, number, object};
ghost use Rattle.serde_json.specs.View.{view, members_view};
ghost use Rattle.gz_recovery.specs.Operations.{author_text, op_data, op_text, op_of, op_in, text_at, number_at, path_at, author_at, create_in, unlink_in, op_if, link_in, write_in, property_in, kind_named, kind_put, number_data, path_of, max_path, IsLawful};
ghost use Rattle.gz_recovery.specs.declared.op.OpKind.TheVariants.{Link, Write, Property};

use crate::{Op, OpKind, Text};
use gz_label::{Blob, Name, NoMemory};
use hex::FromHex;
use serde_json::{Map, Value};
use std::alloc::Global;

/// The most bytes of a path.
const MAX_PATH: usize = 1024;

/// Puts a member.
fn put_member(
    alloc: Global,
    members: &mut Map<String, Value>,
    name: &str,
    value: Value,
) -> Result<(), NoMemory>
    ensures { OnOk result
        (members_view members.new.entries
        ≡ put name.now (view value) (members_view members.old.entries)) }
{
    members.insert(String::from_str(alloc, name)?, value)?;
    Ok(())
}

/// Puts a member whose value is a text.
fn put_text(
    alloc: Global,
    members: &mut Map<String, Value>,
    name: &str,
    text: &str,
) -> Result<(), NoMemory>
    ensures { OnOk result
        (members_view members.new.entries
        ≡ put name.now (string text.now) (members_view members.old.entries)) }
{
    let value = Value::try_from_str(alloc, text)?;
    put_member(alloc, members, name, value)?;
    Ok(())
}

/// Puts a member whose value is a number.
fn put_number(
    alloc: Global,
    members: &mut Map<String, Value>,
    name: &str,
    n: u64,
) -> Result<(), NoMemory>
    ensures { OnOk result
        (members_view members.new.entries
        ≡ put name.now (number_data n) (members_view members.old.entries)) }
{
    let value = Value::from(n);
    put_member(alloc, members, name, value)?;
    Ok(())
}

/// Puts the members that say what an operation does.
fn put_kind(alloc: Global, members: &mut Map<String, Value>, kind: &OpKind) -> Result<(), NoMemory>
    ensures members { OnOk result
        (members_view members.new.entries ≡ kind_put kind.now (members_view members.old.entries)) }
    ensures short { OnOk result (length (path_of kind.now) ≤ max_path) }
{
    match kind {
        OpKind::Create { path } => {
            put_text(alloc, members, "op", "create")?;
            put_text(alloc, members, "path", path.as_str())?;
        }
        OpKind::Link { fnode, path } => {
            put_number(alloc, members, "fnode", *fnode)?;
            put_text(alloc, members, "op", "link")?;
            put_text(alloc, members, "path", path.as_str())?;
        }
        OpKind::Unlink { path } => {
            put_text(alloc, members, "op", "unlink")?;
            put_text(alloc, members, "path", path.as_str())?;
        }
        OpKind::Write {
            fnode,
            offset,
            text,
        } => {
            put_text(alloc, members, "data", text.as_str())?;
            put_number(alloc, members, "fnode", *fnode)?;
            put_number(alloc, members, "offset", *offset)?;
            put_text(alloc, members, "op", "write")?;
        }
        OpKind::Property { path, text } => {
            put_text(alloc, members, "data", text.as_str())?;
            put_text(alloc, members, "op", "property")?;
            put_text(alloc, members, "path", path.as_str())?;
        }
        OpKind::Handoff => {
            put_text(alloc, members, "op", "handoff")?;
        }
    }
    Ok(())
}

/// The author as sixteen lower-case hexadecimal digits.
#[tactic(auto, unfolding(crate::specs::Operations::author_text))]
fn author_text(alloc: Global, author: u64) -> Result<String, NoMemory>
    ensures { IfOk result (λ text. string_bytes text ≡ author_text author) }
{
    Ok(hex::encode(alloc, author.to_be_bytes())?)
}

/// The object of an operation.
#[tactic(auto, using(crate::proofs::Printing::object_of_kind))]
fn value_of(alloc: Global, op: &Op) -> Result<Value, NoMemory>
    ensures object { IfOk result (λ value. view value ≡ op_data op.now) }
    ensures lawful { IfOk result (λ _. IsLawful op.now) }
{
    let author = author_text(alloc, op.author())?;
    let mut members = Map::new(alloc);
    put_text(alloc, &mut members, "author", author.as_str())?;
    put_kind(alloc, &mut members, op.kind())?;
    put_number(alloc, &mut members, "seq", op.seq())?;
    Ok(Value::from(members))
}

/// The content of the operation's frame: compact JSON with its members in alphabetical order. It is read back as that
/// operation.
#[tactic(auto, using(crate::proofs::Printing::no_float, crate::proofs::Printing::shallow, crate::proofs::Again::content_again), unfolding(crate::specs::Operations::op_text))]
pub fn print_op(alloc: Global, op: &Op) -> Result<Blob, NoMemory>
    ensures text { IfOk result (λ content. content ≡ op_text op.now) }
    ensures reads_back { IfOk result (λ content. op_of content ≡ Some op.now) }
{
    let value = value_of(alloc, op)?;
    let content = gz_json::print(alloc, &value)?;
    Ok(content)
}

/// The text of the member of this name.
fn text_at<'a>(value: &'a Value, name: &str) -> Option<&'a str>
    ensures { option_map (λ text. text.now) result ≡ text_at name.now (view value.now) }
{
    value.get(name).and_then(Value::as_str)
}

/// The number of the member of this name.
fn number_at(value: &Value, name: &str) -> Option<u64>
    ensures { result ≡ number_at name.now (view value.now) }
{
    value.get(name).and_then(Value::as_u64)
}

/// The path of an operation.
fn path_at(value: &Value) -> Option<&str>
    ensures value { option_map (λ path. path.now) result ≡ path_at (view value.now) }
    ensures short { IfSome result (λ path. length path.now ≤ 1024) }
{
    let path = text_at(value, "path")?;
    if path.len() > MAX_PATH {
        return None;
    }
    Some(path)
}

/// The author of an operation.
fn author_at(value: &Value) -> Option<u64>
    ensures { result ≡ author_at (view value.now) }
{
    let text = text_at(value, "author")?;
    match <[u8; 8] as FromHex>::from_hex(text) {
        Ok(bytes) => Some(u64::from_be_bytes(bytes)),
        Err(_) => None,
    }
}

/// A create, by its path.
fn create_in(alloc: Global, value: &Value) -> Result<Option<OpKind>, NoMemory>
    ensures { IfOk result (λ kind. kind ≡ create_in (view value.now)) }
{
    let Some(path) = path_at(value) else {
        return Ok(None);
    };
    let path = Name::of(alloc, path)?;
    Ok(Some(OpKind::Create { path }))
}

/// A link, by its node and its path.
fn link_in(alloc: Global, value: &Value) -> Result<Option<OpKind>, NoMemory>
    ensures { IfOk result (λ kind. kind ≡ link_in (view value.now)) }
{
    let Some(fnode) = number_at(value, "fnode") else {
        return Ok(None);
    };
    let Some(path) = path_at(value) else {
        return Ok(None);
    };
    let path = Name::of(alloc, path)?;
    Ok(Some(OpKind::Link { fnode, path }))
}

/// An unlink, by its path.
fn unlink_in(alloc: Global, value: &Value) -> Result<Option<OpKind>, NoMemory>
    ensures { IfOk result (λ kind. kind ≡ unlink_in (view value.now)) }
{
    let Some(path) = path_at(value) else {
        return Ok(None);
    };
    let path = Name::of(alloc, path)?;
    Ok(Some(OpKind::Unlink { path }))
}

/// A write, by its node, its offset and its text.
fn write_in(alloc: Global, value: &Value) -> Result<Option<OpKind>, NoMemory>
    ensures { IfOk result (λ kind. kind ≡ write_in (view value.now)) }
{
    let Some(fnode) = number_at(value, "fnode") else {
        return Ok(None);
    };
    let Some(offset) = number_at(value, "offset") else {
        return Ok(None);
    };
    let Some(text) = text_at(value, "data") else {
        return Ok(None);
    };
    let text = Text::of(alloc, text)?;
    Ok(Some(OpKind::Write {
        fnode,
        offset,
        text,
    }))
}

/// A property, by its path and its text.
fn property_in(alloc: Global, value: &Value) -> Result<Option<OpKind>, NoMemory>
    ensures { IfOk result (λ kind. kind ≡ property_in (view value.now)) }
{
    let Some(path) = path_at(value) else {
        return Ok(None);
    };
    let Some(text) = text_at(value, "data") else {
        return Ok(None);
    };
    let path = Name::of(alloc, path)?;
    let text = Text::of(alloc, text)?;
    Ok(Some(OpKind::Property { path, text }))
}

/// The kind of this name, by the members that it has.
fn kind_named(alloc: Global, name: &str, value: &Value) -> Result<Option<OpKind>, NoMemory>
    ensures { IfOk result (λ kind. kind ≡ kind_named name.now (view value.now)) }
{
    if name == "create" {
        create_in(alloc, value)
    } else if name == "link" {
        link_in(alloc, value)
    } else if name == "unlink" {
        unlink_in(alloc, value)
    } else if name == "write" {
        write_in(alloc, value)
    } else if name == "property" {
        property_in(alloc, value)
    } else if name == "handoff" {
        Ok(Some(OpKind::Handoff))
    } else {
        Ok(None)
    }
}

/// An operation by the members that it needs, whatever else is there.
fn op_in(alloc: Global, value: &Value) -> Result<Option<Op>, NoMemory>
    ensures { IfOk result (λ op. op ≡ op_in (view value.now)) }
{
    let Some(author) = author_at(value) else {
        return Ok(None);
    };
    let Some(seq) = number_at(value, "seq") else {
        return Ok(None);
    };
    let Some(name) = text_at(value, "op") else {
        return Ok(None);
    };
    let Some(kind) = kind_named(alloc, name, value)? else {
        return Ok(None);
    };
    Ok(Op::new(author, seq, kind))
}

/// The operation, where this is its content byte by byte.
fn op_if(alloc: Global, content: &[u8], op: Op) -> Result<Option<Op>, NoMemory>
    ensures { IfOk result (λ found. found ≡ op_if content.now op) }
{
    let printed = print_op(alloc, &op)?;
    if printed.as_slice() != content {
        return Ok(None);
    }
    Ok(Some(op))
}

/// The operation whose content this is, byte by byte: what `print_op` gives for it. None exactly where there is none.
#[tactic(auto, unfolding(crate::specs::Operations::op_of))]
pub fn read_op(alloc: Global, content: &[u8]) -> Result<Option<Op>, NoMemory>
    ensures { IfOk result (λ op. op ≡ op_of content.now) }
{
    let Some(value) = gz_json::parse(alloc, content)? else {
        return Ok(None);
    };
    let Some(op) = op_in(alloc, &value)? else {
        return Ok(None);
    };
    let found = op_if(alloc, content, op)?;
    Ok(found)
}
