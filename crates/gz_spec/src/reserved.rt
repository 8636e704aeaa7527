//! Ids that are kept for the program's own, and what may begin the keys of hints.
ghost use Rattle.std.specs.Prelude.{◌≡◌, ◌≤◌, length, IsTrue, codes};
ghost use Rattle.std.specs.List.{list_all, list_any};
ghost use Rattle.std.specs.Str.{bytes_eq};
ghost use Rattle.std.specs.Char.{is_ascii_digit};
ghost use Rattle.serde_json.specs.View.{view};
ghost use Rattle.gz_json.specs.Json.{is_among};
ghost use Rattle.gz_fields.specs.Outcomes.{Gives};
ghost use Rattle.gz_fields.specs.Form.{name_or};
ghost use Rattle.gz_spec.specs.Reserved.{is_numbered, is_reserved, is_hint_prefix, key_words};

use gz_fields::{FieldError, is_id, path_below};
use gz_label::{Blob, Name};
use serde_json::Value;
use std::alloc::Global;

fn are_digits(text: &[u8]) -> bool
    ensures { result ≡ list_all is_ascii_digit text.now }
{
    text.iter().all(|byte| byte.is_ascii_digit())
}

#[tactic(auto, unfolding(crate::specs::Reserved::is_numbered))]
fn is_numbered(word: &[u8], text: &[u8]) -> bool
    ensures { result ≡ is_numbered word.now text.now }
{
    match text.strip_prefix(word) {
        Some(number) => number.len() >= 1 && are_digits(number),
        None => false,
    }
}

/// Whether the id is kept for the program's own: `keys`, `store`, and `client` followed by digits.
#[tactic(auto, unfolding(crate::specs::Reserved::is_reserved))]
pub fn is_reserved(text: &[u8]) -> bool
    ensures { result ≡ is_reserved text.now }
{
    text == b"keys".as_slice() || text == b"store".as_slice() || is_numbered(b"client", text)
}

/// Whether the text is one of these.
fn is_any_of(text: &str, words: &[&str]) -> bool
    ensures { result ≡ list_any (λ word. bytes_eq word.now text.now) words.now }
{
    words.iter().any(|word| *word == text)
}

fn is_key_word(text: &str) -> bool
    ensures { result ≡ is_among text.now key_words }
{
    is_any_of(
        text,
        &[
            "journal", "shard", "member", "route", "sync", "assign", "author",
        ],
    )
}

/// Whether the text may begin the keys of hints: an id, and none of the words that begin the
/// cluster's own keys.
#[tactic(auto, unfolding(crate::specs::Reserved::is_hint_prefix))]
fn is_hint_prefix(text: &str) -> bool
    ensures value { result ≡ is_hint_prefix text.now }
    ensures short { IsTrue result → length text.now ≤ 32 }
{
    is_id(text.as_bytes()) && !is_key_word(text)
}

/// The prefix of hints, which is `hint` where it is absent.
pub fn read_hint_prefix(
    alloc: Global,
    path: &Blob,
    value: &Value,
    name: &str,
) -> Result<Name, FieldError>
    ensures { Gives
        (λ id. id) result
        (name_or is_hint_prefix (codes "hint") path.now name.now (view value.now)) }
{
    let Some(prefix) = value.get(name) else {
        let default = Name::of(alloc, "hint")?;
        return Ok(default);
    };
    let place = path_below(alloc, path, name)?;
    let Some(text) = prefix.as_str() else {
        return Err(FieldError::BadField { path: place });
    };
    if !is_hint_prefix(text) {
        return Err(FieldError::BadName { path: place });
    }
    let prefix = Name::of(alloc, text)?;
    Ok(prefix)
}
