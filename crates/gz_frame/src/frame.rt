//! Frames: bytes preceded by their length.
ghost use Rattle.std.specs.Prelude.{◌≡◌, ◌↔◌, get_or, Err, IfOk};
ghost use Rattle.gz_frame.specs.Frame.{magic, first_other, framed, length_in, unframed_within, unframed, IsFramed, IsPrefix, Gives};

use gz_label::{Blob, NoMemory};
use std::alloc::{AllocError, Global};
use std::error::Error;
use std::fmt;

/// The bytes with which a frame begins.
const MAGIC: [u8; 4] = [0x66, 0x33, 0x93, 0x36];

/// How many bytes stand before the content.
const HEAD: usize = 8;

/// The most bytes of a content.
const MAX_CONTENT: usize = 1_048_576;

/// Where the frame stands with which bytes begin: its content from the byte `begin` to the byte `end`, and
/// `used` bytes in all.
#[derive(Clone, Copy, Debug, PartialEq, Eq)]
pub struct Unframed {
    pub begin: usize,
    pub end: usize,
    pub used: usize,
}

/// Why there is no frame.
#[derive(Clone, Copy, Debug, PartialEq, Eq)]
pub enum FrameError {
    /// The bytes are a prefix of a frame, and not all of it.
    NeedMore,
    /// This byte, counted from 0 and below 4, is the first that isn't the one with which frames have it.
    BadMagic { at: usize },
    /// The content has more than 1,048,576 bytes.
    TooLong,
    /// Memory ran out.
    NoMemory,
}

impl fmt::Display for FrameError {
    fn fmt<W: fmt::Write>(&self, f: &mut fmt::Formatter<W>) -> fmt::Result {
        match self {
            FrameError::NeedMore => write!(f, "the frame isn't whole"),
            FrameError::BadMagic { at } => write!(f, "byte {at} isn't a frame's"),
            FrameError::TooLong => write!(f, "the frame is too long"),
            FrameError::NoMemory => write!(f, "out of memory"),
        }
    }
}

impl Error for FrameError {}

impl From<NoMemory> for FrameError {
    ghost use Rattle.std.specs.Prelude.{◌≡◌};
    ghost use Rattle.gz_frame.specs.declared.frame.FrameError.TheVariants.{NoMemory};

    ghost from_gives = { λ _ e. e ≡ NoMemory };

    fn from(_e: NoMemory) -> FrameError {
        FrameError::NoMemory
    }
}

impl From<AllocError> for FrameError {
    ghost use Rattle.std.specs.Prelude.{◌≡◌};
    ghost use Rattle.gz_frame.specs.declared.frame.FrameError.TheVariants.{NoMemory};

    ghost from_gives = { λ _ e. e ≡ NoMemory };

    fn from(_e: AllocError) -> FrameError {
        FrameError::NoMemory
    }
}

/// The frame of the content: the bytes 66 33 93 36, the content's length in four bytes with the low one
/// first, and the content. TooLong exactly above 1,048,576 bytes.
pub fn frame_fixed(alloc: Global, content: &[u8]) -> Result<Blob, FrameError>
    ensures { Gives result (framed content.now) }
{
    if content.len() > MAX_CONTENT {
        return Err(FrameError::TooLong);
    }
    let mut frame = Vec::with_capacity(alloc, HEAD + content.len())?;
    frame.extend_from_slice(&MAGIC)?;
    frame.extend_from_slice(&(content.len() as u32).to_le_bytes())?;
    frame.extend_from_slice(content)?;
    Ok(Blob::from_vec(frame))
}

/// The place of the first byte that isn't the one with which frames have it.
fn first_other(bytes: &[u8]) -> Option<usize>
    ensures { result ≡ first_other 0 magic bytes.now }
{
    'magic: for i in 0..4 {
        if i >= bytes.len() {
            return None;
        }
        if bytes[i] != MAGIC[i] {
            return Some(i);
        }
    }
    None
}

/// The byte at the place; 0 where there is none.
fn byte_at(bytes: &[u8], place: usize) -> u8
    ensures { result ≡ get_or bytes.now place 0 }
{
    if place < bytes.len() { bytes[place] } else { 0 }
}

/// The length that stands behind the magic, as far as it has come: what is missing counts as 0.
#[tactic(auto, using(crate::proofs::Frames::length_read))]
fn length_in(bytes: &[u8]) -> usize
    ensures { result ≡ length_in bytes.now }
{
    let low = byte_at(bytes, 4) as usize + 0x100 * byte_at(bytes, 5) as usize;
    let high = byte_at(bytes, 6) as usize + 0x100 * byte_at(bytes, 7) as usize;
    low + 0x1_0000 * high
}

/// Where a frame of a content of so many bytes stands at the start of so many bytes.
fn within(len: usize, have: usize) -> Result<Unframed, FrameError>
    ensures { result ≡ unframed_within len have }
{
    if len > MAX_CONTENT {
        return Err(FrameError::TooLong);
    }
    if have < HEAD + len {
        return Err(FrameError::NeedMore);
    }
    Ok(Unframed {
        begin: HEAD,
        end: HEAD + len,
        used: HEAD + len,
    })
}

/// The frame with which the bytes begin. NeedMore exactly where they are a prefix of a frame, and not all of
/// it; so TooLong comes as soon as the bytes of the length that are there say so. It takes no memory.
#[tactic(auto, using(crate::proofs::FrameLaws::found_framed, crate::proofs::FrameLaws::needed_prefix, crate::proofs::FrameLaws::prefix_needs))]
pub fn unframe(bytes: &[u8]) -> Result<Unframed, FrameError>
    ensures value { result ≡ unframed bytes.now }
    ensures frame { IfOk result (λ place. IsFramed bytes.now place) }
    ensures prefix { (result ≡ Err FrameError.NeedMore) ↔ IsPrefix bytes.now }
{
    if let Some(at) = first_other(bytes) {
        return Err(FrameError::BadMagic { at });
    }
    within(length_in(bytes), bytes.len())
}
