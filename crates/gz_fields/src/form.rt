//! The fields of a JSON object, each by its name, its place and what it is to be.
ghost use Rattle.std.specs.Prelude.{◌≡◌, map};
ghost use Rattle.serde_json.specs.View.{view, items_view, members_view};
ghost use Rattle.gz_fields.specs.Outcomes.{Gives};
ghost use Rattle.gz_fields.specs.Form.{value_of, has_only, text_at, number_from, number_at, number_or, flag_or, items_at, items_or_none};

use crate::FieldError;
use crate::paths::path_below;
use gz_label::Blob;
use serde_json::Value;
use std::alloc::Global;

/// The numbers of a member, from the least to the most.
#[derive(Clone, Copy)]
pub struct Range {
    pub least: u64,
    pub most: u64,
}

/// The JSON value of the text.
pub fn parse(alloc: Global, bytes: &[u8]) -> Result<Value, FieldError>
    ensures { Gives view result (value_of bytes.now) }
{
    match gz_json::parse(alloc, bytes)? {
        Some(value) => Ok(value),
        None => Err(FieldError::NotJson),
    }
}

/// Refuses what isn't an object, and an object that has other members than these.
pub fn refuse_unknown(
    alloc: Global,
    path: &Blob,
    value: &Value,
    names: &[&str],
) -> Result<(), FieldError>
    ensures { Gives
        (λ u. u) result (has_only path.now (map (λ name. name.now) names.now) (view value.now)) }
{
    let Some(members) = value.as_object() else {
        return Err(FieldError::BadField { path: path.copy()? });
    };
    match gz_json::first_unknown(members, names) {
        None => Ok(()),
        Some(name) => Err(FieldError::BadField {
            path: path_below(alloc, path, name)?,
        }),
    }
}

/// The text of this name.
pub fn read_text<'a>(
    alloc: Global,
    path: &Blob,
    value: &'a Value,
    name: &str,
) -> Result<&'a str, FieldError>
    ensures { Gives (λ text. text.now) result (text_at path.now name.now (view value.now)) }
{
    match value.get(name).and_then(Value::as_str) {
        Some(text) => Ok(text),
        None => Err(FieldError::BadField {
            path: path_below(alloc, path, name)?,
        }),
    }
}

/// The number that the value at this place is.
fn number_in(path: Blob, value: &Value, range: Range) -> Result<u64, FieldError>
    ensures { Gives (λ n. n) result (number_from range.least range.most path (view value.now)) }
{
    let Some(number) = value.as_number() else {
        return Err(FieldError::BadField { path });
    };
    match number.as_u64() {
        None => Err(FieldError::BadNumber { path }),
        Some(n) => {
            if range.least <= n && n <= range.most {
                Ok(n)
            } else {
                Err(FieldError::BadNumber { path })
            }
        }
    }
}

/// The number of this name.
pub fn read_number(
    alloc: Global,
    path: &Blob,
    value: &Value,
    name: &str,
    range: Range,
) -> Result<u64, FieldError>
    ensures { Gives
        (λ n. n) result (number_at range.least range.most path.now name.now (view value.now)) }
{
    let place = path_below(alloc, path, name)?;
    match value.get(name) {
        None => Err(FieldError::BadField { path: place }),
        Some(number) => number_in(place, number, range),
    }
}

/// The number of this name, and the default where it is absent.
pub fn read_number_or(
    alloc: Global,
    path: &Blob,
    value: &Value,
    name: &str,
    default: u64,
    range: Range,
) -> Result<u64, FieldError>
    ensures { Gives
        (λ n. n) result
        (number_or default range.least range.most path.now name.now (view value.now)) }
{
    match value.get(name) {
        None => Ok(default),
        Some(number) => {
            let place = path_below(alloc, path, name)?;
            number_in(place, number, range)
        }
    }
}

/// The flag of this name, and the default where it is absent.
pub fn read_flag_or(
    alloc: Global,
    path: &Blob,
    value: &Value,
    name: &str,
    default: bool,
) -> Result<bool, FieldError>
    ensures { Gives (λ flag. flag) result (flag_or default path.now name.now (view value.now)) }
{
    match value.get(name) {
        None => Ok(default),
        Some(flag) => match flag.as_bool() {
            Some(flag) => Ok(flag),
            None => Err(FieldError::BadField {
                path: path_below(alloc, path, name)?,
            }),
        },
    }
}

/// The items of the list of this name.
pub fn read_items<'a>(
    alloc: Global,
    path: &Blob,
    value: &'a Value,
    name: &str,
) -> Result<&'a [Value], FieldError>
    ensures { Gives
        (λ items. items_view items.now) result (items_at path.now name.now (view value.now)) }
{
    match value.get(name).and_then(Value::as_array) {
        Some(items) => Ok(items.as_slice()),
        None => Err(FieldError::BadField {
            path: path_below(alloc, path, name)?,
        }),
    }
}

/// The items of the list of this name, and none where it is absent.
pub fn read_items_or_none<'a>(
    alloc: Global,
    path: &Blob,
    value: &'a Value,
    name: &str,
) -> Result<&'a [Value], FieldError>
    ensures { Gives
        (λ items. items_view items.now) result (items_or_none path.now name.now (view value.now)) }
{
    match value.get(name) {
        None => Ok(&[]),
        Some(list) => match list.as_array() {
            Some(items) => Ok(items.as_slice()),
            None => Err(FieldError::BadField {
                path: path_below(alloc, path, name)?,
            }),
        },
    }
}
