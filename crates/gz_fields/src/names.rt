//! Ids and the names of journals.
ghost use Rattle.std.specs.Prelude.{◌≡◌, ◌≤◌, length, IsTrue};
ghost use Rattle.std.specs.List.{list_all};
ghost use Rattle.serde_json.specs.View.{view};
ghost use Rattle.gz_fields.specs.Outcomes.{Gives};
ghost use Rattle.gz_fields.specs.Names.{is_id, is_journal_name, is_id_byte, is_segment_byte, is_segment, segments};
ghost use Rattle.gz_fields.specs.Form.{name_at};

use crate::FieldError;
use crate::form::read_text;
use crate::paths::path_below;
use gz_label::{Blob, Name};
use serde_json::Value;
use std::alloc::Global;

/// The most bytes of an id.
const MAX_ID: usize = 32;

/// The most bytes of a journal's name.
const MAX_JOURNAL_NAME: usize = 255;

fn is_id_byte(byte: u8) -> bool
    ensures { result ≡ is_id_byte byte }
{
    byte.is_ascii_alphanumeric() || byte == b'_' || byte == b'-'
}

fn is_segment_byte(byte: u8) -> bool
    ensures { result ≡ is_segment_byte byte }
{
    is_id_byte(byte) || byte == b'.'
}

fn are_id_bytes(text: &[u8]) -> bool
    ensures { result ≡ list_all is_id_byte text.now }
{
    text.iter().all(|byte| is_id_byte(*byte))
}

/// Whether the text is an id: 1 to 32 letters, digits, `_` or `-`.
#[tactic(auto, unfolding(crate::specs::Names::is_id))]
pub fn is_id(text: &[u8]) -> bool
    ensures value { result ≡ is_id text.now }
    ensures short { IsTrue result → length text.now ≤ 32 }
{
    let holds = are_id_bytes(text);
    text.len() >= 1 && text.len() <= MAX_ID && holds
}

/// Whether the text is one or more segments, with a `/` between each two.
#[tactic(auto, using(crate::proofs::Segments::goes_on_begins))]
fn is_path(text: &[u8]) -> bool
    ensures { result ≡ list_all is_segment (segments text.now) }
{
    let mut is_inside = false;
    for byte in text {
        if *byte == b'/' {
            if !is_inside {
                return false;
            }
            is_inside = false;
        } else {
            if !is_segment_byte(*byte) {
                return false;
            }
            is_inside = true;
        }
    }
    is_inside
}

/// Whether the text is a journal's name: at most 255 bytes, and segments of letters, digits, `_`,
/// `.` and `-` with a `/` between each two.
#[tactic(auto, unfolding(crate::specs::Names::is_journal_name))]
pub fn is_journal_name(text: &[u8]) -> bool
    ensures value { result ≡ is_journal_name text.now }
    ensures short { IsTrue result → length text.now ≤ 255 }
{
    text.len() <= MAX_JOURNAL_NAME && is_path(text)
}

/// The id of this name.
pub fn read_id(alloc: Global, path: &Blob, value: &Value, name: &str) -> Result<Name, FieldError>
    ensures { Gives (λ id. id) result (name_at is_id path.now name.now (view value.now)) }
{
    let text = read_text(alloc, path, value, name)?;
    if !is_id(text.as_bytes()) {
        return Err(FieldError::BadName {
            path: path_below(alloc, path, name)?,
        });
    }
    let id = Name::of(alloc, text)?;
    Ok(id)
}

/// The journal's name of this name.
pub fn read_journal_name(
    alloc: Global,
    path: &Blob,
    value: &Value,
    name: &str,
) -> Result<Name, FieldError>
    ensures { Gives (λ id. id) result (name_at is_journal_name path.now name.now (view value.now)) }
{
    let text = read_text(alloc, path, value, name)?;
    if !is_journal_name(text.as_bytes()) {
        return Err(FieldError::BadName {
            path: path_below(alloc, path, name)?,
        });
    }
    let journal = Name::of(alloc, text)?;
    Ok(journal)
}
