//! Events as JSON.
ghost use Rattle.std.specs.Prelude.{◌≡◌, IfOk, IsTrue, codes, map};
ghost use Rattle.serde_json.specs.Data.{object, string, member, no_members, put};
ghost use Rattle.serde_json.specs.View.{view, items_view, items_of};
ghost use Rattle.serde_json.specs.Written.{compact_text};
ghost use Rattle.gz_print.specs.Printed.{member_data, specs_data_as};
ghost use Rattle.gz_scenario.specs.Printed.{flag_text, draft_data, publish_data, settle_data, converge_data, apply_data, join_data, expire_data, event_data, IsLine};
ghost use Rattle.gz_scenario.specs.Lawful.{is_start, is_publish, is_apply, is_joiner, is_event};
ghost use Rattle.gz_fields.specs.Names.{is_id};
ghost use Rattle.gz_scenario.specs.declared.event.Event.TheVariants as event;

use crate::{Draft, Event, Flag, Join, MemberKind, Publish};
use gz_label::{Blob, Name, NoMemory};
use gz_print::{journal_values, member_value, print_specs_as, shard_values};
use gz_spec::{MemberSpec, Specs};
use serde_json::{Map, Value};
use std::alloc::Global;

fn flag_text(flag: Flag) -> &'static str
    ensures { result.now ≡ flag_text flag }
{
    match flag {
        Flag::Outside => "outside",
        Flag::Continue => "continue",
        Flag::Ack => "ack",
    }
}

#[tactic(auto, unfolding(crate::specs::Printed::draft_data))]
fn value_of_draft(alloc: Global, draft: &Draft) -> Result<Value, NoMemory>
    ensures { IfOk result (λ value. view value ≡ draft_data draft.now) }
{
    let flag = flag_text(draft.flag);
    let mut members = Map::new(alloc);
    members.insert(String::from_str(alloc, "clock")?, Value::from(draft.clock))?;
    members.insert(
        String::from_str(alloc, "flag")?,
        Value::try_from_str(alloc, flag)?,
    )?;
    members.insert(
        String::from_str(alloc, "key")?,
        Value::try_from_str(alloc, draft.key.as_str())?,
    )?;
    members.insert(
        String::from_str(alloc, "value")?,
        Value::try_from_str(alloc, draft.value.as_str())?,
    )?;
    Ok(Value::from(members))
}

fn values_of_drafts(alloc: Global, drafts: &[Draft]) -> Result<Vec<Value>, NoMemory>
    ensures { IfOk result
        (λ values. items_view values.items ≡ items_of (map draft_data drafts.now)) }
{
    let mut values = Vec::new(alloc);
    for draft in drafts {
        let value = value_of_draft(alloc, draft)?;
        values.push(value)?;
    }
    Ok(values)
}

#[tactic(auto, unfolding(crate::specs::Printed::publish_data))]
fn value_of_publish(alloc: Global, publish: &Publish) -> Result<Value, NoMemory>
    ensures { IfOk result (λ value. view value ≡ publish_data publish.now) }
{
    let messages = values_of_drafts(alloc, publish.messages.as_slice())?;
    let mut members = Map::new(alloc);
    members.insert(
        String::from_str(alloc, "client")?,
        Value::try_from_str(alloc, publish.client.as_str())?,
    )?;
    members.insert(
        String::from_str(alloc, "do")?,
        Value::try_from_str(alloc, "publish")?,
    )?;
    members.insert(
        String::from_str(alloc, "journal")?,
        Value::try_from_str(alloc, publish.journal.as_str())?,
    )?;
    members.insert(String::from_str(alloc, "messages")?, Value::from(messages))?;
    members.insert(
        String::from_str(alloc, "producer")?,
        Value::from(publish.producer),
    )?;
    Ok(Value::from(members))
}

/// The line of a publish, without its newline: compact JSON with the members in the order of their names.
/// Where it is a publish as `read_event` gives them, and short enough, it is read back as the same.
#[tactic(auto, using(crate::proofs::Floats::publish_no_float, crate::proofs::Again::publish_line))]
pub fn print_publish(alloc: Global, publish: &Publish) -> Result<Blob, NoMemory>
    ensures text { IfOk result (λ line. line ≡ compact_text (publish_data publish.now)) }
    ensures reads_back { IfOk result
        (λ line. IsTrue (is_publish publish.now) → IsLine (event.Publish publish.now) line) }
{
    let value = value_of_publish(alloc, publish)?;
    let line = gz_json::print(alloc, &value)?;
    Ok(line)
}

#[tactic(auto, unfolding(crate::specs::Printed::settle_data))]
fn value_of_settle(alloc: Global) -> Result<Value, NoMemory>
    ensures { IfOk result (λ value. view value ≡ settle_data) }
{
    let mut members = Map::new(alloc);
    members.insert(
        String::from_str(alloc, "do")?,
        Value::try_from_str(alloc, "settle")?,
    )?;
    Ok(Value::from(members))
}

/// The line of a settle, without its newline, which is read back as one.
#[tactic(auto, using(crate::proofs::Floats::settle_no_float, crate::proofs::Floats::settle_depth, crate::proofs::Again::settle_line))]
pub fn print_settle(alloc: Global) -> Result<Blob, NoMemory>
    ensures text { IfOk result (λ line. line ≡ compact_text settle_data) }
    ensures reads_back { IfOk result (λ line. IsLine event.Settle line) }
{
    let value = value_of_settle(alloc)?;
    let line = gz_json::print(alloc, &value)?;
    Ok(line)
}

#[tactic(auto, unfolding(crate::specs::Printed::converge_data))]
fn value_of_converge(alloc: Global) -> Result<Value, NoMemory>
    ensures { IfOk result (λ value. view value ≡ converge_data) }
{
    let mut members = Map::new(alloc);
    members.insert(
        String::from_str(alloc, "do")?,
        Value::try_from_str(alloc, "converge")?,
    )?;
    Ok(Value::from(members))
}

/// The line of a converge, without its newline, which is read back as one.
#[tactic(auto, using(crate::proofs::Floats::converge_no_float, crate::proofs::Floats::converge_depth, crate::proofs::Again::converge_line))]
pub fn print_converge(alloc: Global) -> Result<Blob, NoMemory>
    ensures text { IfOk result (λ line. line ≡ compact_text converge_data) }
    ensures reads_back { IfOk result (λ line. IsLine event.Converge line) }
{
    let value = value_of_converge(alloc)?;
    let line = gz_json::print(alloc, &value)?;
    Ok(line)
}

#[tactic(auto, unfolding(crate::specs::Printed::apply_data))]
fn value_of_apply(alloc: Global, part: &Specs) -> Result<Value, NoMemory>
    ensures { IfOk result (λ value. view value ≡ apply_data part.now) }
{
    let journals = journal_values(alloc, part.journals.as_slice())?;
    let shards = shard_values(alloc, part.shards.as_slice())?;
    let mut members = Map::new(alloc);
    members.insert(
        String::from_str(alloc, "do")?,
        Value::try_from_str(alloc, "apply")?,
    )?;
    members.insert(String::from_str(alloc, "journals")?, Value::Array(journals))?;
    members.insert(String::from_str(alloc, "shards")?, Value::Array(shards))?;
    Ok(Value::from(members))
}

/// The line of an apply, without its newline: its journals and shards with every member. Members of the cluster are
/// left out, since an apply has none. Where it is an apply as `read_event` gives them, and short enough, it is read
/// back as the same.
#[tactic(auto, using(crate::proofs::Floats::apply_no_float, crate::proofs::Again::apply_line))]
pub fn print_apply(alloc: Global, part: &Specs) -> Result<Blob, NoMemory>
    ensures text { IfOk result (λ line. line ≡ compact_text (apply_data part.now)) }
    ensures reads_back { IfOk result
        (λ line. IsTrue (is_apply part.now) → IsLine (event.Apply part.now) line) }
{
    let value = value_of_apply(alloc, part)?;
    let line = gz_json::print(alloc, &value)?;
    Ok(line)
}

/// A join of this member, as what is named so.
fn value_of_joining(alloc: Global, kind: &str, joiner: &MemberSpec) -> Result<Value, NoMemory>
    ensures { IfOk result
        (λ value. view value
        ≡ object (put (codes "do") (string (codes "join"))
        (member kind.now (member_data joiner.now) no_members))) }
{
    let joiner = member_value(alloc, joiner)?;
    let mut members = Map::new(alloc);
    members.insert(String::from_str(alloc, kind)?, joiner)?;
    members.insert(
        String::from_str(alloc, "do")?,
        Value::try_from_str(alloc, "join")?,
    )?;
    Ok(Value::from(members))
}

#[tactic(auto, unfolding(crate::specs::Printed::join_data), using(crate::proofs::Joiners::broker_first, crate::proofs::Joiners::consumer_first))]
fn value_of_join(alloc: Global, join: &Join) -> Result<Value, NoMemory>
    ensures { IfOk result (λ value. view value ≡ join_data join.now) }
{
    match join.kind {
        MemberKind::Broker => value_of_joining(alloc, "broker", &join.member),
        MemberKind::Consumer => value_of_joining(alloc, "consumer", &join.member),
    }
}

/// The line of a join, without its newline. Where it is a join as `read_event` gives them, and short enough, it is
/// read back as the same.
#[tactic(auto, using(crate::proofs::Floats::join_no_float, crate::proofs::Again::join_line))]
pub fn print_join(alloc: Global, join: &Join) -> Result<Blob, NoMemory>
    ensures text { IfOk result (λ line. line ≡ compact_text (join_data join.now)) }
    ensures reads_back { IfOk result
        (λ line. IsTrue (is_joiner join.now.member) → IsLine (event.Join join.now) line) }
{
    let value = value_of_join(alloc, join)?;
    let line = gz_json::print(alloc, &value)?;
    Ok(line)
}

#[tactic(auto, unfolding(crate::specs::Printed::expire_data))]
fn value_of_expire(alloc: Global, id: &Name) -> Result<Value, NoMemory>
    ensures { IfOk result (λ value. view value ≡ expire_data id.now) }
{
    let mut members = Map::new(alloc);
    members.insert(
        String::from_str(alloc, "do")?,
        Value::try_from_str(alloc, "expire")?,
    )?;
    members.insert(
        String::from_str(alloc, "member")?,
        Value::try_from_str(alloc, id.as_str())?,
    )?;
    Ok(Value::from(members))
}

/// The line of an expire, without its newline. Where the id is one by its form, and the line short enough, it is
/// read back as the same.
#[tactic(auto, using(crate::proofs::Floats::expire_no_float))]
pub fn print_expire(alloc: Global, id: &Name) -> Result<Blob, NoMemory>
    ensures text { IfOk result (λ line. line ≡ compact_text (expire_data id.now)) }
    ensures reads_back { IfOk result
        (λ line. IsTrue (is_id id.now) → IsLine (event.Expire id.now) line) }
{
    let value = value_of_expire(alloc, id)?;
    let line = gz_json::print(alloc, &value)?;
    Ok(line)
}

/// The line of the specifications that a scenario begins with, without its newline.
#[tactic(auto, using(crate::proofs::Again::start_line))]
fn print_start(alloc: Global, specs: &Specs) -> Result<Blob, NoMemory>
    ensures text { IfOk result
        (λ line. line ≡ compact_text (specs_data_as (codes "specs") specs.now)) }
    ensures reads_back { IfOk result
        (λ line. IsTrue (is_start specs.now) → IsLine (event.Specs specs.now) line) }
{
    let line = print_specs_as(alloc, "specs", specs)?;
    Ok(line)
}

/// The line of an event, without its newline: compact JSON with the members in the order of their names, `do`
/// among them. Where it is an event as `read_event` gives them, it is read back as the same: specifications on
/// the first line, any other event on each later line. A line of more than 4,194,304 bytes, and one past the
/// 65,536th, is refused when it is read.
pub fn print_event(alloc: Global, event: &Event) -> Result<Blob, NoMemory>
    ensures text { IfOk result (λ line. line ≡ compact_text (event_data event.now)) }
    ensures reads_back { IfOk result (λ line. IsTrue (is_event event.now) → IsLine event.now line) }
{
    match event {
        Event::Specs(specs) => print_start(alloc, specs),
        Event::Publish(publish) => print_publish(alloc, publish),
        Event::Settle => print_settle(alloc),
        Event::Converge => print_converge(alloc),
        Event::Apply(part) => print_apply(alloc, part),
        Event::Join(join) => print_join(alloc, join),
        Event::Expire(id) => print_expire(alloc, id),
    }
}
