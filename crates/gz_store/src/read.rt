//! A commit read back from its text.
ghost use Rattle.std.specs.Prelude.{◌≡◌, IfOk, option_map, [], Some};
ghost use Rattle.serde_json.specs.View.{view, members_view, items_view};
ghost use Rattle.gz_recovery.specs.Operations.{text_at, number_at};
ghost use Rattle.gz_store.specs.Stores.{items_at, if_name, name_at, number_of, null_or, null_or_at, id_at, producer_of, producers_of, intent_of, source_of, all_of, checkpoint_of, kept_of, entry_of, state_of_members, store_in, store_if, store_read};

use crate::print::print_store;
use crate::{Checkpoint, Intent, Source, Store};
use gz_app::{Kept, State};
use gz_label::{Name, NoMemory};
use gz_recovery::Text;
use gz_sequencer::{ProducerMark, SourcePoint};
use gz_uuid::ProducerId;
use hex::FromHex;
use serde_json::{Map, Value};
use std::alloc::Global;
use std::collections::BTreeMap;

/// The most bytes of a key, and of a journal's name.
const MAX_NAME: usize = 1024;

/// The text of the member of this name.
fn text_at<'a>(value: &'a Value, name: &str) -> Option<&'a str>
    ensures { option_map (λ text. text.now) result ≡ text_at name.now (view value.now) }
{
    value.get(name).and_then(Value::as_str)
}

/// The number of the member of this name.
fn number_at(value: &Value, name: &str) -> Option<u64>
    ensures { result ≡ number_at name.now (view value.now) }
{
    value.get(name).and_then(Value::as_u64)
}

/// The items of the member of this name.
fn items_at<'a>(value: &'a Value, name: &str) -> Option<&'a Vec<Value>>
    ensures { option_map (λ items. items_view items.now.items) result
        ≡ items_at name.now (view value.now) }
{
    value.get(name).and_then(Value::as_array)
}

/// The text, where it is a name.
fn if_name(alloc: Global, text: &str) -> Result<Option<Name>, NoMemory>
    ensures { IfOk result (λ name. name ≡ if_name text.now) }
{
    if text.len() > MAX_NAME {
        return Ok(None);
    }
    let name = Name::of(alloc, text)?;
    Ok(Some(name))
}

/// The name that the member of this name is.
fn name_at(alloc: Global, value: &Value, name: &str) -> Result<Option<Name>, NoMemory>
    ensures { IfOk result (λ found. found ≡ name_at name.now (view value.now)) }
{
    let Some(text) = text_at(value, name) else {
        return Ok(None);
    };
    let found = if_name(alloc, text)?;
    Ok(found)
}

/// An acknowledgement by its members.
fn read_intent(alloc: Global, value: &Value) -> Result<Option<Intent>, NoMemory>
    ensures { IfOk result (λ intent. intent ≡ intent_of (view value.now)) }
{
    let Some(journal) = name_at(alloc, value, "journal")? else {
        return Ok(None);
    };
    let Some(line) = text_at(value, "line") else {
        return Ok(None);
    };
    let line = Text::of(alloc, line)?;
    Ok(Some(Intent { journal, line }))
}

/// Acknowledgements, where each value is one.
#[tactic(auto, using(crate::proofs::Lists::none_before, crate::proofs::Lists::one_more))]
fn read_intents(alloc: Global, values: &[Value]) -> Result<Option<Vec<Intent>>, NoMemory>
    ensures { IfOk result
        (λ intents. option_map (λ v. v.items) intents
        ≡ all_of intent_of (items_view values.now)) }
{
    let mut intents = Vec::new(alloc);
    for value in values {
        let Some(intent) = read_intent(alloc, value)? else {
            return Ok(None);
        };
        intents.push(intent)?;
    }
    Ok(Some(intents))
}

/// A number, or null for none.
fn null_or(value: &Value) -> Option<Option<u64>>
    ensures { result ≡ null_or (view value.now) }
{
    if value.is_null() {
        return Some(None);
    }
    let n = value.as_u64()?;
    Some(Some(n))
}

/// The number of the member of this name, or null for none.
fn null_or_at(value: &Value, name: &str) -> Option<Option<u64>>
    ensures { result ≡ null_or_at name.now (view value.now) }
{
    let member = value.get(name)?;
    null_or(member)
}

/// The producer whose twelve digits the member `id` is.
fn id_at(value: &Value) -> Option<ProducerId>
    ensures { result ≡ id_at (view value.now) }
{
    let text = text_at(value, "id")?;
    match <[u8; 6] as FromHex>::from_hex(text) {
        Ok(octets) => ProducerId::new(octets),
        Err(_) => None,
    }
}

/// A producer and its mark by their members.
fn read_producer(value: &Value) -> Option<(ProducerId, ProducerMark)>
    ensures { result ≡ producer_of (view value.now) }
{
    let id = id_at(value)?;
    let ack = null_or_at(value, "ack")?;
    let pending = null_or_at(value, "pending")?;
    Some((id, ProducerMark { ack, pending }))
}

/// Producers with their marks, where each value is one.
#[tactic(auto, using(crate::proofs::Lists::one_put))]
fn read_producers(
    alloc: Global,
    values: &[Value],
) -> Result<Option<BTreeMap<ProducerId, ProducerMark>>, NoMemory>
    ensures { IfOk result
        (λ producers. option_map (λ m. m.entries) producers
        ≡ producers_of (items_view values.now)) }
{
    let mut producers = BTreeMap::new(alloc);
    for value in values {
        let Some((id, mark)) = read_producer(value) else {
            return Ok(None);
        };
        producers.insert(id, mark)?;
    }
    Ok(Some(producers))
}

/// What was read of a source, by its members.
fn read_source(alloc: Global, value: &Value) -> Result<Option<Source>, NoMemory>
    ensures { IfOk result (λ source. source ≡ source_of (view value.now)) }
{
    let Some(journal) = name_at(alloc, value, "journal")? else {
        return Ok(None);
    };
    let Some(offset) = number_at(value, "offset") else {
        return Ok(None);
    };
    let Some(values) = items_at(value, "producers") else {
        return Ok(None);
    };
    let Some(producers) = read_producers(alloc, values.as_slice())? else {
        return Ok(None);
    };
    let point = SourcePoint::of(offset, producers);
    Ok(Some(Source { journal, point }))
}

/// What was read of sources, where each value is one.
#[tactic(auto, using(crate::proofs::Lists::none_before, crate::proofs::Lists::one_more))]
fn read_sources(alloc: Global, values: &[Value]) -> Result<Option<Vec<Source>>, NoMemory>
    ensures { IfOk result
        (λ sources. option_map (λ v. v.items) sources
        ≡ all_of source_of (items_view values.now)) }
{
    let mut sources = Vec::new(alloc);
    for value in values {
        let Some(source) = read_source(alloc, value)? else {
            return Ok(None);
        };
        sources.push(source)?;
    }
    Ok(Some(sources))
}

/// A checkpoint by its members.
fn read_checkpoint(alloc: Global, value: &Value) -> Result<Option<Checkpoint>, NoMemory>
    ensures { IfOk result (λ checkpoint. checkpoint ≡ checkpoint_of (view value.now)) }
{
    let Some(values) = items_at(value, "intents") else {
        return Ok(None);
    };
    let Some(intents) = read_intents(alloc, values.as_slice())? else {
        return Ok(None);
    };
    let Some(values) = items_at(value, "sources") else {
        return Ok(None);
    };
    let Some(sources) = read_sources(alloc, values.as_slice())? else {
        return Ok(None);
    };
    Ok(Some(Checkpoint { sources, intents }))
}

/// What is kept of a key: a number or a text.
fn read_kept(alloc: Global, value: &Value) -> Result<Option<Kept>, NoMemory>
    ensures { IfOk result (λ kept. kept ≡ kept_of (view value.now)) }
{
    if let Some(n) = value.as_u64() {
        return Ok(Some(Kept::Number(n)));
    }
    let Some(text) = value.as_str() else {
        return Ok(None);
    };
    let text = gz_app::Text::of(alloc, text)?;
    Ok(Some(Kept::Text(text)))
}

/// A key and what is kept of it.
fn read_entry(alloc: Global, key: &str, value: &Value) -> Result<Option<(Name, Kept)>, NoMemory>
    ensures { IfOk result (λ entry. entry ≡ entry_of key.now (view value.now)) }
{
    let Some(key) = if_name(alloc, key)? else {
        return Ok(None);
    };
    let Some(kept) = read_kept(alloc, value)? else {
        return Ok(None);
    };
    Ok(Some((key, kept)))
}

/// The state whose keys the members are.
#[tactic(auto, using(crate::proofs::Lists::one_put))]
fn read_state(alloc: Global, members: &Map<String, Value>) -> Result<Option<State>, NoMemory>
    ensures { IfOk result (λ state. state ≡ state_of_members (members_view members.now.entries)) }
{
    let mut state = State::new(alloc);
    for (key, value) in members {
        let Some((key, kept)) = read_entry(alloc, key.as_str(), value)? else {
            return Ok(None);
        };
        state.keep(key, kept)?;
    }
    Ok(Some(state))
}

/// A commit by its members.
fn store_in(alloc: Global, value: &Value) -> Result<Option<Store>, NoMemory>
    ensures { IfOk result (λ store. store ≡ store_in (view value.now)) }
{
    let Some(checkpoint) = value.get("checkpoint") else {
        return Ok(None);
    };
    let Some(checkpoint) = read_checkpoint(alloc, checkpoint)? else {
        return Ok(None);
    };
    let Some(members) = value.get("state").and_then(Value::as_object) else {
        return Ok(None);
    };
    let Some(state) = read_state(alloc, members)? else {
        return Ok(None);
    };
    Ok(Some(Store { checkpoint, state }))
}

/// The commit, where this is its text byte by byte.
fn store_if(alloc: Global, text: &[u8], store: Store) -> Result<Option<Store>, NoMemory>
    ensures { IfOk result (λ found. found ≡ store_if text.now store) }
{
    let printed = print_store(alloc, &store.checkpoint, &store.state)?;
    if printed.as_str().as_bytes() != text {
        return Ok(None);
    }
    Ok(Some(store))
}

/// The commit whose text this is, byte by byte: what `print_store` gives for it. None exactly where there is none.
#[tactic(auto, unfolding(crate::specs::Stores::store_read))]
pub fn read_store(alloc: Global, text: &[u8]) -> Result<Option<Store>, NoMemory>
    ensures { IfOk result (λ store. store ≡ store_read text.now) }
{
    let Some(value) = gz_json::parse(alloc, text)? else {
        return Ok(None);
    };
    let Some(store) = store_in(alloc, &value)? else {
        return Ok(None);
    };
    let found = store_if(alloc, text, store)?;
    Ok(found)
}
