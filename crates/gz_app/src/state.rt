//! The state of an application.
ghost use Rattle.std.specs.Prelude.{◌≡◌, ◌≤◌, [], length, false, IfOk, OnOk, OnErr, option_map};
ghost use Rattle.serde_json.specs.Data.{put};
ghost use Rattle.serde_json.specs.View.{view, members_view};
ghost use Rattle.serde_json.specs.Written.{compact_text, has_float};
ghost use Rattle.std.specs.Map.{keys_of};
ghost use Rattle.gz_app.specs.States.{kept_at, keep, number_at, kept_data, state_data, AreKeys};

use gz_label::{Blob, Name, NoMemory};
use serde_json::{Map, Value};
use std::alloc::Global;
use std::collections::BTreeMap;
use std::marker::Model;

/// A text, which contracts see as its bytes.
#[derive(Debug, Drop)]
pub struct Text {
    text: String,
}

impl Model for Text {
    ghost use Rattle.std.specs.Prelude.{List, ℕ, string_bytes};

    ghost Value = { List ℕ };

    ghost view = { λ a. string_bytes a.text };
}

impl Text {
    /// The same text.
    pub fn of(alloc: Global, text: &str) -> Result<Text, NoMemory>
        ensures { IfOk result (λ kept. kept ≡ text.now) }
    {
        Ok(Text {
            text: String::from_str(alloc, text)?,
        })
    }

    /// The text. It takes no memory.
    pub fn as_str(&self) -> &str
        ensures { result.now ≡ self.now }
    {
        self.text.as_str()
    }
}

/// What is kept of a key.
#[derive(Debug, Drop)]
pub enum Kept {
    /// A number.
    Number(u64),
    /// A text.
    Text(Text),
}

/// What an application keeps of each key. Contracts see pairs of a key and what is kept of it, in key order.
#[derive(Drop)]
pub struct State {
    entries: BTreeMap<Name, Kept>,
}

impl Model for State {
    ghost use Rattle.gz_app.specs.States.{State as Seen};

    ghost Value = { Seen };

    ghost view = { λ a. a.entries.entries };
}

impl State {
    /// No keys. It takes no memory.
    pub fn new(alloc: Global) -> State
        ensures { result ≡ [] }
    {
        State {
            entries: BTreeMap::new(alloc),
        }
    }

    /// What is kept of the key.
    pub fn get(&self, key: &Name) -> Option<&Kept>
        ensures { option_map (λ kept. kept.now) result ≡ kept_at key.now self.now }
    {
        self.entries.get(key)
    }

    /// The number of the key, which is 0 where nothing is kept of it or a text is.
    pub fn number(&self, key: &Name) -> u64
        ensures { result ≡ number_at key.now self.now }
    {
        match self.entries.get(key) {
            Some(Kept::Number(number)) => *number,
            Some(Kept::Text(_)) => 0,
            None => 0,
        }
    }

    /// Keeps this of the key, in place of what was kept of it. After NoMemory nothing has changed.
    pub fn keep(&mut self, key: Name, kept: Kept) -> Result<(), NoMemory>
        ensures ok { OnOk result (self.new ≡ keep key kept self.old) }
        ensures err { OnErr result (self.new ≡ self.old) }
    {
        self.entries.insert(key, kept)?;
        Ok(())
    }
}

/// What is kept, as a JSON value.
fn value_of(alloc: Global, kept: &Kept) -> Result<Value, NoMemory>
    ensures { IfOk result (λ value. view value ≡ kept_data kept.now) }
{
    match kept {
        Kept::Number(number) => Ok(Value::from(*number)),
        Kept::Text(text) => Ok(Value::try_from_str(alloc, text.as_str())?),
    }
}

/// Puts a member for the key into the object.
fn put_kept(
    alloc: Global,
    members: &mut Map<String, Value>,
    key: &str,
    kept: &Kept,
) -> Result<(), NoMemory>
    ensures { OnOk result
        (members_view members.new.entries
        ≡ put key.now (kept_data kept.now) (members_view members.old.entries)) }
{
    let value = value_of(alloc, kept)?;
    members.insert(String::from_str(alloc, key)?, value)?;
    Ok(())
}

/// The state as a JSON value: an object with a member for each key, in key order, which is what is kept of it.
#[tactic(auto, using(crate::proofs::Floats::no_float))]
pub fn state_value(alloc: Global, state: &State) -> Result<Value, NoMemory>
    ensures value { IfOk result (λ value. view value ≡ state_data state.now) }
    ensures whole { IfOk result (λ value. has_float (view value) ≡ false) }
    ensures keys { IfOk result (λ _. AreKeys (keys_of state.now)) }
{
    let mut members = Map::new(alloc);
    for (key, kept) in state.entries.iter() {
        put_kept(alloc, &mut members, key.as_str(), kept)?;
    }
    Ok(Value::from(members))
}

/// The state as compact JSON: an object with a member for each key, in key order, which is what is kept of it.
pub fn print_state(alloc: Global, state: &State) -> Result<Blob, NoMemory>
    ensures { IfOk result (λ text. text ≡ compact_text (state_data state.now)) }
{
    let value = state_value(alloc, state)?;
    gz_json::print(alloc, &value)
}
