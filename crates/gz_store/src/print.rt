//! A commit as JSON.
ghost use Rattle.std.specs.Prelude.{◌≡◌, IfOk, OnOk, Some, map, string_bytes};
ghost use Rattle.serde_json.specs.Data.{string, put};
ghost use Rattle.serde_json.specs.View.{view, members_view, items_of};
ghost use Rattle.std.specs.Map.{keys_of};
ghost use Rattle.hex.specs.Hex.{IsBytes, encode_lower};
ghost use Rattle.gz_app.specs.States.{AreKeys};
ghost use Rattle.gz_store.specs.Stores.{IsBack, store_data, store_text, store_read, checkpoint_data, source_data, producer_data, intent_data, or_null, intent_of, producer_of, source_of, checkpoint_of, store_in, producers_of};

use crate::{Checkpoint, Intent, Source};
use gz_app::{State, state_value};
use gz_label::{Name, NoMemory};
use gz_sequencer::ProducerMark;
use gz_uuid::ProducerId;
use serde_json::{Map, Value};
use std::alloc::Global;
use std::collections::BTreeMap;

/// Puts a member of this name into the object.
fn put(
    alloc: Global,
    members: &mut Map<String, Value>,
    name: &str,
    value: Value,
) -> Result<(), NoMemory>
    ensures { OnOk result
        (members_view members.new.entries
        ≡ put name.now (view value) (members_view members.old.entries)) }
{
    members.insert(String::from_str(alloc, name)?, value)?;
    Ok(())
}

fn text_value(alloc: Global, text: &str) -> Result<Value, NoMemory>
    ensures { IfOk result (λ value. view value ≡ string text.now) }
{
    let value = Value::try_from_str(alloc, text)?;
    Ok(value)
}

/// The number, or null where there is none.
fn or_null(n: Option<u64>) -> Value
    ensures value { view result ≡ or_null n }
{
    match n {
        Some(n) => Value::from(n),
        None => Value::Null,
    }
}

/// The acknowledgement as JSON, which is read back.
#[tactic(auto, using(crate::proofs::Back::intent_back))]
fn intent_value(alloc: Global, intent: &Intent) -> Result<Value, NoMemory>
    ensures value { IfOk result (λ value. view value ≡ intent_data intent.now) }
    ensures back { IfOk result (λ _. intent_of (intent_data intent.now) ≡ Some intent.now) }
{
    let mut members = Map::new(alloc);
    let journal = text_value(alloc, intent.journal.as_str())?;
    put(alloc, &mut members, "journal", journal)?;
    let line = text_value(alloc, intent.line.as_str())?;
    put(alloc, &mut members, "line", line)?;
    Ok(Value::from(members))
}

/// The acknowledgements as JSON, which are read back.
#[tactic(auto, using(crate::proofs::Back::one_back))]
fn intent_values(alloc: Global, intents: &[Intent]) -> Result<Vec<Value>, NoMemory>
    ensures value { IfOk result (λ values. map view values.items ≡ map intent_data intents.now) }
    ensures back { IfOk result (λ _. IsBack intent_of intent_data intents.now) }
{
    let mut values = Vec::new(alloc);
    for intent in intents {
        let value = intent_value(alloc, intent)?;
        values.push(value)?;
    }
    Ok(values)
}

/// The octets as lower-case hexadecimal digits.
fn digits_of(alloc: Global, octets: &[u8]) -> Result<String, NoMemory>
    ensures value { IfOk result (λ text. string_bytes text ≡ encode_lower octets.now) }
    ensures bytes { IfOk result (λ _. IsBytes octets.now) }
{
    let text = hex::encode(alloc, octets)?;
    Ok(text)
}

/// A producer and its mark as JSON, which are read back.
#[tactic(auto, using(crate::proofs::Back::producer_back))]
fn producer_value(
    alloc: Global,
    producer: ProducerId,
    mark: &ProducerMark,
) -> Result<Value, NoMemory>
    ensures value { IfOk result (λ value. view value ≡ producer_data (producer, mark.now)) }
    ensures back { IfOk result
        (λ _. producer_of (producer_data (producer, mark.now)) ≡ Some (producer, mark.now)) }
{
    let mut members = Map::new(alloc);
    put(alloc, &mut members, "ack", or_null(mark.ack))?;
    let id = digits_of(alloc, &producer.octets())?;
    let id = text_value(alloc, id.as_str())?;
    put(alloc, &mut members, "id", id)?;
    put(alloc, &mut members, "pending", or_null(mark.pending))?;
    Ok(Value::from(members))
}

/// The producers as JSON, which are read back.
#[tactic(auto, using(crate::proofs::Back::one_back, crate::proofs::Back::producers_back))]
fn producer_values(
    alloc: Global,
    producers: &BTreeMap<ProducerId, ProducerMark>,
) -> Result<Vec<Value>, NoMemory>
    ensures value { IfOk result
        (λ values. map view values.items ≡ map producer_data producers.now.entries) }
    ensures back { IfOk result
        (λ _. producers_of (items_of (map producer_data producers.now.entries))
        ≡ Some producers.now.entries) }
{
    let mut values = Vec::new(alloc);
    for (producer, mark) in producers.iter() {
        let value = producer_value(alloc, *producer, mark)?;
        values.push(value)?;
    }
    Ok(values)
}

/// What was read of a source as JSON, which is read back.
#[tactic(auto, using(crate::proofs::Back::source_back))]
fn source_value(alloc: Global, source: &Source) -> Result<Value, NoMemory>
    ensures value { IfOk result (λ value. view value ≡ source_data source.now) }
    ensures back { IfOk result (λ _. source_of (source_data source.now) ≡ Some source.now) }
{
    let mut members = Map::new(alloc);
    let journal = text_value(alloc, source.journal.as_str())?;
    put(alloc, &mut members, "journal", journal)?;
    let offset = Value::from(source.point.offset());
    put(alloc, &mut members, "offset", offset)?;
    let producers = producer_values(alloc, source.point.producers())?;
    put(alloc, &mut members, "producers", Value::Array(producers))?;
    Ok(Value::from(members))
}

/// What was read of the sources as JSON, which is read back.
#[tactic(auto, using(crate::proofs::Back::one_back))]
fn source_values(alloc: Global, sources: &[Source]) -> Result<Vec<Value>, NoMemory>
    ensures value { IfOk result (λ values. map view values.items ≡ map source_data sources.now) }
    ensures back { IfOk result (λ _. IsBack source_of source_data sources.now) }
{
    let mut values = Vec::new(alloc);
    for source in sources {
        let value = source_value(alloc, source)?;
        values.push(value)?;
    }
    Ok(values)
}

/// The checkpoint as JSON, which is read back.
#[tactic(auto, using(crate::proofs::Back::checkpoint_back))]
fn checkpoint_value(alloc: Global, checkpoint: &Checkpoint) -> Result<Value, NoMemory>
    ensures value { IfOk result (λ value. view value ≡ checkpoint_data checkpoint.now) }
    ensures back { IfOk result
        (λ _. checkpoint_of (checkpoint_data checkpoint.now) ≡ Some checkpoint.now) }
{
    let mut members = Map::new(alloc);
    let intents = intent_values(alloc, checkpoint.intents.as_slice())?;
    put(alloc, &mut members, "intents", Value::Array(intents))?;
    let sources = source_values(alloc, checkpoint.sources.as_slice())?;
    put(alloc, &mut members, "sources", Value::Array(sources))?;
    Ok(Value::from(members))
}

/// The commit as JSON, which is read back.
#[tactic(auto, using(crate::proofs::Back::store_back, crate::proofs::InOrder::state_back))]
fn store_value(alloc: Global, checkpoint: &Checkpoint, state: &State) -> Result<Value, NoMemory>
    ensures value { IfOk result
        (λ value. view value
        ≡ store_data (record { checkpoint = checkpoint.now; state = state.now })) }
    ensures back { IfOk result
        (λ _. store_in (store_data (record { checkpoint = checkpoint.now; state = state.now }))
        ≡ Some (record { checkpoint = checkpoint.now; state = state.now })) }
    ensures keys { IfOk result (λ _. AreKeys (keys_of state.now)) }
{
    let mut members = Map::new(alloc);
    let checkpoint = checkpoint_value(alloc, checkpoint)?;
    put(alloc, &mut members, "checkpoint", checkpoint)?;
    let state = state_value(alloc, state)?;
    put(alloc, &mut members, "state", state)?;
    Ok(Value::from(members))
}

/// The text of the commit: compact JSON. It is read back as that commit.
pub fn print_store(
    alloc: Global,
    checkpoint: &Checkpoint,
    state: &State,
) -> Result<String, NoMemory>
    ensures text { IfOk result
        (λ text. string_bytes text
        ≡ store_text (record { checkpoint = checkpoint.now; state = state.now })) }
    ensures reads_back { IfOk result
        (λ text. store_read (string_bytes text)
        ≡ Some (record { checkpoint = checkpoint.now; state = state.now })) }
{
    let value = store_value(alloc, checkpoint, state)?;
    let text = value.to_string(alloc)?;
    Ok(text)
}
