//! JSON values.
ghost use Rattle.std.specs.Prelude.{◌≡◌, ◌≤◌, map, length, Some, None, IfOk, option_map, false};
ghost use Rattle.serde_json.specs.Data.{depth, Data};
ghost use Rattle.serde_json.specs.View.{view, members_view};
ghost use Rattle.serde_json.specs.Read.{read, max_depth};
ghost use Rattle.serde_json.specs.Written.{compact_text, has_float};
ghost use Rattle.std.specs.List.{list_any};
ghost use Rattle.std.specs.Str.{bytes_eq};
ghost use Rattle.gz_json.specs.Json.{json_of, first_unknown as first_unknown_of};

use gz_label::{Blob, NoMemory};
use serde_json::{Map, Value};
use std::alloc::Global;

/// The value of the text, where it is JSON; None where it isn't, or isn't UTF-8. Of members of one name the
/// last counts.
#[tactic(auto, using(crate::proofs::Known::json_of_text))]
pub fn parse(alloc: Global, bytes: &[u8]) -> Result<Option<Value>, NoMemory>
    ensures { IfOk result (λ value. option_map view value ≡ json_of bytes.now) }
{
    let Ok(text) = str::from_utf8(bytes) else {
        return Ok(None);
    };
    match Value::from_str(alloc, text) {
        Ok(value) => Ok(Some(value)),
        Err(e) => {
            if e.is_memory() {
                Err(NoMemory)
            } else {
                Ok(None)
            }
        }
    }
}

fn is_known(name: &str, known: &[&str]) -> bool
    ensures { result ≡ list_any (λ k. bytes_eq k.now name.now) known.now }
{
    known.iter().any(|k| *k == name)
}

/// The first member, in name order, whose name isn't among the known ones.
pub fn first_unknown<'a>(members: &'a Map<String, Value>, known: &[&str]) -> Option<&'a str>
    ensures { option_map
        (λ name. name.now) result
        ≡ first_unknown_of (map (λ name. name.now) known.now) (members_view members.now.entries) }
{
    for (name, _) in members {
        let name = name.as_str();
        if !is_known(name, known) {
            return Some(name);
        }
    }
    None
}

/// The compact text of the value, which has no float, with the members of an object in name order.
#[tactic(auto, using(crate::proofs::Known::json_of_text))]
pub fn print(alloc: Global, value: &Value) -> Result<Blob, NoMemory>
    requires { has_float (view value.now) ≡ false }
    ensures text { IfOk result (λ blob. blob ≡ compact_text (view value.now)) }
    ensures reads_back { IfOk result
        (λ blob. depth (view value.now) ≤ max_depth → json_of blob ≡ Some (view value.now)) }
{
    let text = value.to_string(alloc)?;
    Blob::of(alloc, text.as_str().as_bytes())
}
