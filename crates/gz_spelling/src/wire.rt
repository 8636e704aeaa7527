//! Messages as bytes.
ghost use Rattle.std.specs.Prelude.{◌≡◌, ◌++◌, ◌∷◌, ◌≤◌, List, ℕ, Ok, drop, length, IfOk, OnOk};
ghost use Rattle.gz_wire.specs.declared.msg.Msg.{Msg};
ghost use Rattle.std.specs.Int.{w32, to_le_bytes};
ghost use Rattle.gz_wire.specs.Kinds.{kind_of};
ghost use Rattle.gz_spelling.specs.Table.{every_row, HasKind};
ghost use Rattle.gz_spelling.specs.Wire.{Gives, body_of, spelling, closed, encoded, body_in, peer_in, of_kind, msg_in, decoded, in_message, FitsMessage, decoded_of, Begins};

use crate::reading::message_at;
use crate::table::{messages, tag_of};
use crate::writing::put_fields;
use crate::{Table, WireError};
use bytes::{BufMut, BytesMut};
use gz_codec::{FieldError, name_at, put_text};
use gz_label::{Blob, Name};
use gz_wire::{Kind, Msg};
use std::alloc::{AllocError, Global};

/// The most bytes of a body.
const MAX_BODY: usize = 134_217_728;

/// How many bytes stand in front of a body.
const HEAD: usize = 4;

/// How many bytes most messages take besides a content.
const SMALL: usize = 256;

/// What bytes begin with: a message, the name of its peer, and how many bytes the two take.
#[derive(Debug, Drop)]
pub struct Decoded {
    pub peer: Name,
    pub msg: Msg,
    pub used: usize,
}

/// The error of a message with the tag.
fn in_message(tag: u8, error: FieldError) -> WireError
    ensures { result ≡ in_message tag error }
{
    match error {
        FieldError::Bad { field } => WireError::BadField { tag, field },
        FieldError::NoMemory => WireError::NoMemory,
    }
}

/// About how many bytes the message takes, so that a buffer needn't grow over a content.
fn room_for(msg: &Msg) -> usize {
    let content = match msg {
        Msg::Append { content, .. } => content.len(),
        Msg::ReadDone { content, .. } => content.len(),
        Msg::StorePut { content, .. } => content.len(),
        Msg::StoreGot { content, .. } => content.len(),
        Msg::Replicate { entry, .. } => entry.bytes.len(),
        Msg::KsGrant { value, .. } => value.len(),
        _ => 0,
    };
    content.min(MAX_BODY) + SMALL
}

/// Writes a body.
#[tactic(auto, unfolding(crate::specs::Wire::body_of))]
fn put_body(out: &mut BytesMut, peer: &Name, msg: &Msg) -> Result<(), AllocError>
    ensures { OnOk result (out.new.items ≡ out.old.items ++ body_of peer.now msg.now) }
{
    let tag = tag_of(msg.kind());
    put_text(out, peer)?;
    out.put_u8(tag)?;
    put_fields(out, msg)?;
    Ok(())
}

/// Writes the length over the first four bytes.
fn set_length(bytes: &mut [u8], len: u32)
    requires { 4 ≤ length bytes.old }
    ensures { bytes.new ≡ to_le_bytes w32 len ++ drop 4 bytes.old }
{
    let head = len.to_le_bytes();
    bytes[0] = head[0];
    bytes[1] = head[1];
    bytes[2] = head[2];
    bytes[3] = head[3];
}

/// The body behind the first four bytes, with its length in their place.
#[tactic(auto, unfolding(crate::specs::Wire::closed, crate::specs::Wire::framed))]
fn closed(mut out: BytesMut) -> Result<Blob, WireError>
    requires { 4 ≤ length out.items }
    ensures { Gives (λ blob. blob) result (closed (drop 4 out.items)) }
{
    let len = out.len() - HEAD;
    if len > MAX_BODY {
        return Err(WireError::TooLong);
    }
    set_length(out.as_mut_slice(), len as u32);
    let bytes = out.into_vec()?;
    Ok(Blob::from_vec(bytes))
}

/// The one spelling of the message to or from the peer. TooLong exactly where the body has more than 134,217,728
/// bytes.
pub fn encode(alloc: Global, peer: &Name, msg: &Msg) -> Result<Blob, WireError>
    ensures { Gives (λ blob. blob) result (encoded peer.now msg.now) }
{
    let mut out = BytesMut::with_capacity(alloc, room_for(msg))?;
    out.put_u32(0)?;
    put_body(&mut out, peer, msg)?;
    let spelling = closed(out)?;
    Ok(spelling)
}

/// The body at the start of the bytes.
#[tactic(auto, unfolding(crate::specs::Wire::body_in))]
fn body_in(bytes: &[u8]) -> Result<&[u8], WireError>
    ensures { Gives (λ body. body.now) result (body_in bytes.now) }
{
    if bytes.len() < HEAD {
        return Err(WireError::NeedMore);
    }
    let (head, rest) = bytes.split_at(HEAD);
    let len = u32::from_le_bytes([head[0], head[1], head[2], head[3]]) as usize;
    if len > MAX_BODY {
        return Err(WireError::TooLong);
    }
    if rest.len() < len {
        return Err(WireError::NeedMore);
    }
    let (body, _more) = rest.split_at(len);
    Ok(body)
}

/// The name of the peer, and the bytes behind it.
#[tactic(auto, unfolding(crate::specs::Wire::peer_in))]
fn peer_in(alloc: Global, body: &[u8]) -> Result<(Name, &[u8]), WireError>
    ensures { Gives (λ x. (x.0, x.1.now)) result (peer_in body.now) }
{
    match name_at(alloc, 0, body) {
        Ok(peer) => Ok(peer),
        Err(e) => Err(in_message(0, e)),
    }
}

/// The message of the kind, which the tag named, whose fields are all of the bytes.
#[tactic(auto, using(crate::proofs::Whole::named_fails))]
fn of_kind(alloc: Global, kind: Option<Kind>, tag: u8, fields: &[u8]) -> Result<Msg, WireError>
    ensures { Gives (λ msg. msg) result (of_kind kind tag fields.now) }
{
    let Some(kind) = kind else {
        return Err(WireError::BadTag { tag });
    };
    match message_at(alloc, kind, fields) {
        Ok(msg) => Ok(msg),
        Err(e) => Err(in_message(tag, e)),
    }
}

/// The message behind the name of the peer.
#[tactic(auto, unfolding(crate::specs::Wire::msg_in))]
fn msg_in<const N: usize>(alloc: Global, table: &Table<N>, bytes: &[u8]) -> Result<Msg, WireError>
    ensures { Gives (λ msg. msg) result (msg_in table.now.rows bytes.now) }
{
    match bytes {
        [] => Err(WireError::BadField { tag: 0, field: 1 }),
        [tag, fields @ ..] => of_kind(alloc, table.kind(*tag), *tag, fields),
    }
}

/// What the bytes begin with.
fn read<const N: usize>(alloc: Global, table: &Table<N>, bytes: &[u8]) -> Result<Decoded, WireError>
    ensures { Gives (λ d. d) result (decoded table.now.rows bytes.now) }
{
    let body = body_in(bytes)?;
    let (peer, rest) = peer_in(alloc, body)?;
    let msg = msg_in(alloc, table, rest)?;
    Ok(Decoded {
        peer,
        msg,
        used: HEAD + body.len(),
    })
}

impl<const N: usize> Table<N> {
    /// The message of the table with whose spelling the bytes begin. Otherwise the first of these that holds is told:
    /// TooLong, NeedMore, the name of the peer is bad, the body ends behind it, BadTag, the first bad field by its
    /// number. The memory that is taken is bounded by the bytes: no count makes room for items that aren't there.
    pub fn read(&self, alloc: Global, bytes: &[u8]) -> Result<Decoded, WireError>
        // What is told is what the bytes begin with.
        ensures begins { IfOk result (λ d. Begins bytes.now d) }
        // What the bytes begin with is told, unless memory runs out.
        ensures only { (peer : List ℕ) (m : Msg) (more : List ℕ) →
            HasKind (kind_of m) self.now.rows →
            FitsMessage peer m → bytes.now ≡ spelling peer m ++ more →
            Gives (λ d. d) result (Ok (decoded_of peer m)) }
        // Which error it is.
        ensures exact { Gives (λ d. d) result (decoded self.now.rows bytes.now) }
    {
        read(alloc, self, bytes)
    }
}

/// The message with whose spelling the bytes begin, or why there is none, as `Table::read` says it of the table of all
/// messages.
pub fn decode(alloc: Global, bytes: &[u8]) -> Result<Decoded, WireError>
    // What is told is what the bytes begin with.
    ensures begins { IfOk result (λ d. Begins bytes.now d) }
    // What the bytes begin with is told, unless memory runs out.
    ensures only { (peer : List ℕ) (m : Msg) (more : List ℕ) → FitsMessage peer m →
        bytes.now ≡ spelling peer m ++ more → Gives (λ d. d) result (Ok (decoded_of peer m)) }
    // Which error it is.
    ensures exact { Gives (λ d. d) result (decoded every_row bytes.now) }
{
    let table = messages();
    table.read(alloc, bytes)
}
