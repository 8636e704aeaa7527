//! Specifications as JSON with every member.
ghost use Rattle.std.specs.Prelude.{◌≡◌, IfOk, OnOk, Ok, Some, IsTrue, map};
ghost use Rattle.serde_json.specs.Data.{string, put};
ghost use Rattle.serde_json.specs.View.{view, members_view};
ghost use Rattle.serde_json.specs.Written.{compact_text};
ghost use Rattle.gz_json.specs.Json.{json_of};
ghost use Rattle.gz_print.specs.Printed.{first_values, with_first, label_members, labels_data, fragment_data, journal_data, source_data, shard_data, member_data, four_lists, specs_data, specs_data_as, journal_text, shard_text, specs_text};
ghost use Rattle.gz_spec.specs.Journals.{journal_of};
ghost use Rattle.gz_spec.specs.Shards.{shard_of};
ghost use Rattle.gz_spec.specs.Specs.{part_of};

use gz_label::{Blob, Label, Name, NoMemory};
use gz_spec::{JournalSpec, MemberSpec, ShardSpec, SourceSpec, Specs};
use serde_json::{Map, Value};
use std::alloc::Global;

/// Puts a member of this name into the object.
fn put(
    alloc: Global,
    members: &mut Map<String, Value>,
    name: &str,
    value: Value,
) -> Result<(), NoMemory>
    ensures { OnOk result
        (members_view members.new.entries
        ≡ put name.now (view value) (members_view members.old.entries)) }
{
    members.insert(String::from_str(alloc, name)?, value)?;
    Ok(())
}

fn text_value(alloc: Global, text: &Name) -> Result<Value, NoMemory>
    ensures { IfOk result (λ value. view value ≡ string text.now) }
{
    let value = Value::try_from_str(alloc, text.as_str())?;
    Ok(value)
}

/// The values of the first labels, as long as they have this name.
fn first_values(alloc: Global, name: &Name, labels: &[Label]) -> Result<Vec<Value>, NoMemory>
    ensures { IfOk result
        (λ values. map view values.items ≡ map string (first_values name.now labels.now)) }
{
    let mut values = Vec::new(alloc);
    for label in labels {
        if label.name.as_slice() != name.as_slice() {
            return Ok(values);
        }
        let value = text_value(alloc, &label.value)?;
        values.push(value)?;
    }
    Ok(values)
}

/// Puts the name of the first label with the values of the first labels.
fn put_first(
    alloc: Global,
    members: &mut Map<String, Value>,
    labels: &[Label],
) -> Result<(), NoMemory>
    ensures { OnOk result
        (members_view members.new.entries
        ≡ with_first labels.now (members_view members.old.entries)) }
{
    let Some(first) = labels.first() else {
        return Ok(());
    };
    let values = first_values(alloc, &first.name, labels)?;
    put(alloc, members, first.name.as_str(), Value::Array(values))?;
    Ok(())
}

/// Each name of the labels, with its values.
fn label_members(alloc: Global, labels: &[Label]) -> Result<Map<String, Value>, NoMemory>
    ensures { IfOk result (λ members. members_view members.entries ≡ label_members labels.now) }
{
    let mut members = Map::new(alloc);
    for i in 0..labels.len() {
        put_first(alloc, &mut members, &labels[labels.len() - 1 - i..])?;
    }
    Ok(members)
}

fn labels_value(alloc: Global, labels: &[Label]) -> Result<Value, NoMemory>
    ensures { IfOk result (λ value. view value ≡ labels_data labels.now) }
{
    let members = label_members(alloc, labels)?;
    Ok(Value::from(members))
}

fn fragment_value(alloc: Global, bytes: u64) -> Result<Value, NoMemory>
    ensures { IfOk result (λ value. view value ≡ fragment_data bytes) }
{
    let mut members = Map::new(alloc);
    let codec = Value::try_from_str(alloc, "NONE")?;
    put(alloc, &mut members, "compression_codec", codec)?;
    put(alloc, &mut members, "length", Value::from(bytes))?;
    Ok(Value::from(members))
}

fn journal_value(alloc: Global, journal: &JournalSpec) -> Result<Value, NoMemory>
    ensures { IfOk result (λ value. view value ≡ journal_data journal.now) }
{
    let fragment = fragment_value(alloc, journal.fragment_length)?;
    let labels = labels_value(alloc, journal.labels.as_slice())?;
    let name = text_value(alloc, &journal.name)?;
    let mut members = Map::new(alloc);
    put(alloc, &mut members, "fragment", fragment)?;
    put(alloc, &mut members, "labels", labels)?;
    put(alloc, &mut members, "name", name)?;
    let replication = Value::from(journal.replication);
    put(alloc, &mut members, "replication", replication)?;
    Ok(Value::from(members))
}

fn source_value(alloc: Global, source: &SourceSpec) -> Result<Value, NoMemory>
    ensures { IfOk result (λ value. view value ≡ source_data source.now) }
{
    let journal = text_value(alloc, &source.journal)?;
    let mut members = Map::new(alloc);
    put(alloc, &mut members, "journal", journal)?;
    put(
        alloc,
        &mut members,
        "min_offset",
        Value::from(source.min_offset),
    )?;
    Ok(Value::from(members))
}

fn source_values(alloc: Global, sources: &[SourceSpec]) -> Result<Vec<Value>, NoMemory>
    ensures { IfOk result (λ values. map view values.items ≡ map source_data sources.now) }
{
    let mut values = Vec::new(alloc);
    for source in sources {
        let value = source_value(alloc, source)?;
        values.push(value)?;
    }
    Ok(values)
}

fn shard_value(alloc: Global, shard: &ShardSpec) -> Result<Value, NoMemory>
    ensures { IfOk result (λ value. view value ≡ shard_data shard.now) }
{
    let hint_prefix = text_value(alloc, &shard.hint_prefix)?;
    let id = text_value(alloc, &shard.id)?;
    let labels = labels_value(alloc, shard.labels.as_slice())?;
    let log = text_value(alloc, &shard.recovery_log_prefix)?;
    let sources = source_values(alloc, shard.sources.as_slice())?;
    let mut members = Map::new(alloc);
    put(alloc, &mut members, "disable", Value::Bool(shard.disable))?;
    put(
        alloc,
        &mut members,
        "hint_backups",
        Value::from(shard.hint_backups),
    )?;
    put(alloc, &mut members, "hint_prefix", hint_prefix)?;
    put(
        alloc,
        &mut members,
        "hot_standbys",
        Value::from(shard.hot_standbys),
    )?;
    put(alloc, &mut members, "id", id)?;
    put(alloc, &mut members, "labels", labels)?;
    put(alloc, &mut members, "recovery_log_prefix", log)?;
    put(alloc, &mut members, "sources", Value::Array(sources))?;
    Ok(Value::from(members))
}

/// The member as JSON.
pub fn member_value(alloc: Global, member: &MemberSpec) -> Result<Value, NoMemory>
    ensures { IfOk result (λ value. view value ≡ member_data member.now) }
{
    let id = text_value(alloc, &member.id)?;
    let zone = text_value(alloc, &member.zone)?;
    let mut members = Map::new(alloc);
    put(alloc, &mut members, "id", id)?;
    put(alloc, &mut members, "limit", Value::from(member.limit))?;
    put(alloc, &mut members, "zone", zone)?;
    Ok(Value::from(members))
}

/// Each journal as JSON, with every member.
pub fn journal_values(alloc: Global, journals: &[JournalSpec]) -> Result<Vec<Value>, NoMemory>
    ensures { IfOk result (λ values. map view values.items ≡ map journal_data journals.now) }
{
    let mut values = Vec::new(alloc);
    for journal in journals {
        let value = journal_value(alloc, journal)?;
        values.push(value)?;
    }
    Ok(values)
}

/// Each shard as JSON, with every member.
pub fn shard_values(alloc: Global, shards: &[ShardSpec]) -> Result<Vec<Value>, NoMemory>
    ensures { IfOk result (λ values. map view values.items ≡ map shard_data shards.now) }
{
    let mut values = Vec::new(alloc);
    for shard in shards {
        let value = shard_value(alloc, shard)?;
        values.push(value)?;
    }
    Ok(values)
}

fn member_values(alloc: Global, members: &[MemberSpec]) -> Result<Vec<Value>, NoMemory>
    ensures { IfOk result (λ values. map view values.items ≡ map member_data members.now) }
{
    let mut values = Vec::new(alloc);
    for member in members {
        let value = member_value(alloc, member)?;
        values.push(value)?;
    }
    Ok(values)
}

/// The four lists, each by its name.
fn four_lists(alloc: Global, specs: &Specs) -> Result<Map<String, Value>, NoMemory>
    ensures { IfOk result (λ members. members_view members.entries ≡ four_lists specs.now) }
{
    let brokers = member_values(alloc, specs.brokers.as_slice())?;
    let consumers = member_values(alloc, specs.consumers.as_slice())?;
    let journals = journal_values(alloc, specs.journals.as_slice())?;
    let shards = shard_values(alloc, specs.shards.as_slice())?;
    let mut members = Map::new(alloc);
    put(alloc, &mut members, "brokers", Value::Array(brokers))?;
    put(alloc, &mut members, "consumers", Value::Array(consumers))?;
    put(alloc, &mut members, "journals", Value::Array(journals))?;
    put(alloc, &mut members, "shards", Value::Array(shards))?;
    Ok(members)
}

fn specs_value(alloc: Global, specs: &Specs) -> Result<Value, NoMemory>
    ensures { IfOk result (λ value. view value ≡ specs_data specs.now) }
{
    let members = four_lists(alloc, specs)?;
    Ok(Value::from(members))
}

#[tactic(auto, unfolding(crate::specs::Printed::specs_data_as))]
fn specs_value_as(alloc: Global, event: &str, specs: &Specs) -> Result<Value, NoMemory>
    ensures { IfOk result (λ value. view value ≡ specs_data_as event.now specs.now) }
{
    let mut members = four_lists(alloc, specs)?;
    let event = Value::try_from_str(alloc, event)?;
    put(alloc, &mut members, "do", event)?;
    Ok(Value::from(members))
}

/// The journal as compact JSON with every member. Reading gives it back, where it is one that a reader
/// takes.
#[tactic(auto, unfolding(crate::specs::Printed::journal_text), using(crate::proofs::Datas::journal_no_float))]
pub fn print_journal(alloc: Global, journal: &JournalSpec) -> Result<Blob, NoMemory>
    ensures text { IfOk result (λ text. text ≡ journal_text journal.now) }
    ensures reads_back { IfOk result (λ text. journal_of text ≡ Ok journal.now) }
{
    // A look inside, by which the type's invariant is known.
    let _ = &journal.name;
    let value = journal_value(alloc, journal)?;
    let text = gz_json::print(alloc, &value)?;
    Ok(text)
}

/// The shard as compact JSON with every member. Reading gives it back, where it is one that a reader
/// takes.
#[tactic(auto, unfolding(crate::specs::Printed::shard_text), using(crate::proofs::Datas::shard_no_float))]
pub fn print_shard(alloc: Global, shard: &ShardSpec) -> Result<Blob, NoMemory>
    ensures text { IfOk result (λ text. text ≡ shard_text shard.now) }
    ensures reads_back { IfOk result (λ text. shard_of text ≡ Ok shard.now) }
{
    // A look inside, by which the type's invariant is known.
    let _ = &shard.id;
    let value = shard_value(alloc, shard)?;
    let text = gz_json::print(alloc, &value)?;
    Ok(text)
}

/// The four lists as compact JSON with every member. `read_part` gives them back, so that what judges a text as a
/// whole judges these.
#[tactic(auto, unfolding(crate::specs::Printed::specs_text), using(crate::proofs::Datas::specs_no_float))]
pub fn print_specs(alloc: Global, specs: &Specs) -> Result<Blob, NoMemory>
    ensures text { IfOk result (λ text. text ≡ specs_text specs.now) }
    ensures reads_back { IfOk result (λ text. part_of text ≡ Ok specs.now) }
{
    // A look inside, by which the type's invariant is known.
    let _ = &specs.journals;
    let value = specs_value(alloc, specs)?;
    let text = gz_json::print(alloc, &value)?;
    Ok(text)
}

/// The four lists as compact JSON with every member, and beside them a member `do` that says this event. What
/// reads specifications passes over that member: `read_part` gives the four lists back.
#[tactic(auto, using(crate::proofs::Datas::specs_as_no_float))]
pub fn print_specs_as(alloc: Global, event: &str, specs: &Specs) -> Result<Blob, NoMemory>
    ensures text { IfOk result (λ text. text ≡ compact_text (specs_data_as event.now specs.now)) }
    ensures value { IfOk result (λ text. json_of text ≡ Some (specs_data_as event.now specs.now)) }
    ensures reads_back { IfOk result (λ text. part_of text ≡ Ok specs.now) }
{
    // A look inside, by which the type's invariant is known.
    let _ = &specs.journals;
    let value = specs_value_as(alloc, event, specs)?;
    let text = gz_json::print(alloc, &value)?;
    Ok(text)
}
