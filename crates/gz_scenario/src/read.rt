//! The events that lines say.
ghost use Rattle.std.specs.Prelude.{◌≡◌, Some, IfOk, IsTrue};
ghost use Rattle.serde_json.specs.View.{view};
ghost use Rattle.gz_fields.specs.Outcomes.{Gives as GivesFields};
ghost use Rattle.gz_scenario.specs.Outcomes.{Gives};
ghost use Rattle.gz_scenario.specs.Refusals.{on_line};
ghost use Rattle.gz_scenario.specs.Events.{settle_in, converge_in, change_event, later_event, event_named, event_in, event_of};
ghost use Rattle.gz_scenario.specs.Lawful.{is_event};

use crate::change::{read_apply, read_expire, read_join};
use crate::error::{bad_field, bad_specs};
use crate::publish::read_publish;
use crate::{Event, ScenarioError};
use gz_fields::{FieldError, refuse_unknown};
use gz_label::Blob;
use gz_links::read_specs;
use serde_json::Value;
use std::alloc::Global;

/// The most lines of a scenario.
const MAX_LINES: u64 = 65_536;

/// The most bytes of a line.
const MAX_LINE: usize = 4_194_304;

#[tactic(auto, unfolding(crate::specs::Events::settle_in))]
fn read_settle(alloc: Global, value: &Value) -> Result<Event, FieldError>
    ensures { GivesFields (λ e. e) result (settle_in (view value.now)) }
{
    refuse_unknown(alloc, &Blob::new(alloc), value, &["do"])?;
    Ok(Event::Settle)
}

#[tactic(auto, unfolding(crate::specs::Events::converge_in))]
fn read_converge(alloc: Global, value: &Value) -> Result<Event, FieldError>
    ensures { GivesFields (λ e. e) result (converge_in (view value.now)) }
{
    refuse_unknown(alloc, &Blob::new(alloc), value, &["do"])?;
    Ok(Event::Converge)
}

/// The event that changes what is there, by what it says to do.
fn read_change(
    alloc: Global,
    number: u64,
    verb: &str,
    value: &Value,
) -> Result<Event, ScenarioError>
    ensures { Gives (λ e. e) result (change_event number verb.now (view value.now)) }
{
    if verb == "apply" {
        return match read_apply(alloc, value) {
            Ok(part) => Ok(Event::Apply(part)),
            Err(e) => Err(bad_field(number, e)),
        };
    }
    if verb == "join" {
        return match read_join(alloc, value) {
            Ok(join) => Ok(Event::Join(join)),
            Err(e) => Err(bad_field(number, e)),
        };
    }
    if verb == "expire" {
        return match read_expire(alloc, value) {
            Ok(id) => Ok(Event::Expire(id)),
            Err(e) => Err(bad_field(number, e)),
        };
    }
    if verb == "converge" {
        return match read_converge(alloc, value) {
            Ok(event) => Ok(event),
            Err(e) => Err(bad_field(number, e)),
        };
    }
    Err(ScenarioError::Unknown { line: number })
}

/// The event of a later line, by what it says to do.
fn read_later(alloc: Global, number: u64, verb: &str, value: &Value) -> Result<Event, ScenarioError>
    ensures { Gives (λ e. e) result (later_event number verb.now (view value.now)) }
{
    if verb == "publish" {
        return match read_publish(alloc, value) {
            Ok(publish) => Ok(Event::Publish(publish)),
            Err(e) => Err(bad_field(number, e)),
        };
    }
    if verb == "settle" {
        return match read_settle(alloc, value) {
            Ok(event) => Ok(event),
            Err(e) => Err(bad_field(number, e)),
        };
    }
    let event = read_change(alloc, number, verb, value)?;
    Ok(event)
}

/// The specifications that the first line says.
#[tactic(auto, using(crate::proofs::Refused::specs_fail))]
fn read_first(alloc: Global, verb: &str, line: &[u8], value: &Value) -> Result<Event, ScenarioError>
    ensures { Gives (λ e. e) result (event_named 1 line.now verb.now (view value.now)) }
{
    if verb != "specs" {
        return Err(ScenarioError::Unknown { line: 1 });
    }
    match read_specs(alloc, line) {
        Ok(specs) => Ok(Event::Specs(specs)),
        Err(e) => Err(bad_specs(1, e)),
    }
}

fn read_value(
    alloc: Global,
    number: u64,
    line: &[u8],
    value: &Value,
) -> Result<Event, ScenarioError>
    ensures { Gives (λ e. e) result (event_in number line.now (Some (view value.now))) }
{
    let Some(verb) = value.get("do").and_then(Value::as_str) else {
        return Err(ScenarioError::Unknown { line: number });
    };
    if number == 1 {
        let event = read_first(alloc, verb, line, value)?;
        return Ok(event);
    }
    let event = read_later(alloc, number, verb, value)?;
    Ok(event)
}

#[tactic(auto, unfolding(crate::specs::Events::event_of))]
fn read_line(alloc: Global, number: u64, line: &[u8]) -> Result<Event, ScenarioError>
    ensures { Gives (λ e. e) result (event_of number line.now) }
{
    if number > MAX_LINES || line.len() > MAX_LINE {
        return Err(ScenarioError::Limit { line: number });
    }
    let Some(value) = gz_json::parse(alloc, line)? else {
        return Err(ScenarioError::NotJson { line: number });
    };
    let event = read_value(alloc, number, line, &value)?;
    Ok(event)
}

/// The event that the line of this number says, counted from 1: specifications on the first line, and any
/// other event on a later one. The line may end in a newline. The error is the first that holds: Limit
/// past 65,536 lines or 4,194,304 bytes, NotJson, Unknown where the line says no such event, and BadField
/// with the path of its first offender: an unknown member in name order, else the members in the order
/// `client`, `journal`, `messages`, `producer`, and of a message `flag`, `clock`, `key`, `value`; `journals`,
/// `shards`; `broker`, `consumer`, just one of which has to be there, and of either `id`, `zone`, `limit`;
/// `member`. Time goes with the bytes of the line.
#[tactic(auto, using(crate::proofs::Accepted::event_good))]
pub fn read_event(alloc: Global, number: u64, line: &[u8]) -> Result<Event, ScenarioError>
    ensures gives { Gives (λ e. e) result (event_of number line.now) }
    ensures lawful { IfOk result (λ e. IsTrue (is_event e)) }
{
    let event = read_line(alloc, number, line)?;
    Ok(event)
}
