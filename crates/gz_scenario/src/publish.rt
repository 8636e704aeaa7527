//! Publishes as JSON.
ghost use Rattle.std.specs.Prelude.{◌≡◌};
ghost use Rattle.serde_json.specs.View.{view, items_view};
ghost use Rattle.gz_fields.specs.Outcomes.{Gives};
ghost use Rattle.gz_scenario.specs.Events.{flag_at, short_or_none, draft_in, drafts_from, some_drafts, publish_in};

use crate::{Draft, Drafts, Flag, Publish};
use gz_app::Text;
use gz_fields::{
    FieldError, Range, path_below, path_of_item, read_id, read_items, read_journal_name,
    read_number, read_number_or, read_text, refuse_unknown,
};
use gz_label::Blob;
use serde_json::Value;
use std::alloc::Global;

/// The most bytes of a message's key, as messages have them: the clauses cite the numbers of `gz_frame`.
const MAX_KEY: usize = 256;

/// The most bytes of a message's value.
const MAX_VALUE: usize = 4096;

/// The clocks of messages.
const CLOCK: Range = Range {
    least: 0,
    most: 18_446_744_073_709_551_615,
};

/// The numbers of producers.
const PRODUCER: Range = Range {
    least: 0,
    most: 1_099_511_627_775,
};

/// The producer where no other is said.
const FIRST_PRODUCER: u64 = 1;

fn read_flag(alloc: Global, path: &Blob, value: &Value) -> Result<Flag, FieldError>
    ensures { Gives (λ f. f) result (flag_at path.now (view value.now)) }
{
    let text = read_text(alloc, path, value, "flag")?;
    if text == "outside" {
        return Ok(Flag::Outside);
    }
    if text == "continue" {
        return Ok(Flag::Continue);
    }
    if text == "ack" {
        return Ok(Flag::Ack);
    }
    Err(FieldError::BadName {
        path: path_below(alloc, path, "flag")?,
    })
}

/// The text of this name, of at most so many bytes, and the empty one where it is absent.
fn read_short_or_none(
    alloc: Global,
    path: &Blob,
    value: &Value,
    name: &str,
    most: usize,
) -> Result<Text, FieldError>
    ensures { Gives (λ text. text) result (short_or_none most path.now name.now (view value.now)) }
{
    let Some(member) = value.get(name) else {
        let none = Text::of(alloc, "")?;
        return Ok(none);
    };
    let place = path_below(alloc, path, name)?;
    let Some(text) = member.as_str() else {
        return Err(FieldError::BadField { path: place });
    };
    if text.len() > most {
        return Err(FieldError::BadNumber { path: place });
    }
    let text = Text::of(alloc, text)?;
    Ok(text)
}

#[tactic(auto, unfolding(crate::specs::Events::draft_in))]
fn read_draft(alloc: Global, path: &Blob, value: &Value) -> Result<Draft, FieldError>
    ensures { Gives (λ m. m) result (draft_in path.now (view value.now)) }
{
    refuse_unknown(alloc, path, value, &["flag", "clock", "key", "value"])?;
    let flag = read_flag(alloc, path, value)?;
    let clock = read_number(alloc, path, value, "clock", CLOCK)?;
    let key = read_short_or_none(alloc, path, value, "key", MAX_KEY)?;
    let value = read_short_or_none(alloc, path, value, "value", MAX_VALUE)?;
    Ok(Draft {
        flag,
        clock,
        key,
        value,
    })
}

fn read_each_draft(alloc: Global, path: &Blob, values: &[Value]) -> Result<Drafts, FieldError>
    ensures { Gives (λ ms. ms) result (drafts_from path.now 0 (items_view values.now)) }
{
    let mut drafts = Vec::new(alloc);
    for (i, value) in values.iter().enumerate() {
        let place = path_of_item(alloc, path, i)?;
        let draft = read_draft(alloc, &place, value)?;
        drafts.push(draft)?;
    }
    Ok(Drafts::of(drafts))
}

fn read_drafts(alloc: Global, path: &Blob, values: &[Value]) -> Result<Drafts, FieldError>
    ensures { Gives (λ ms. ms) result (some_drafts path.now (items_view values.now)) }
{
    if values.is_empty() {
        return Err(FieldError::BadNumber { path: path.copy()? });
    }
    let drafts = read_each_draft(alloc, path, values)?;
    Ok(drafts)
}

/// The publish that the value is.
#[tactic(auto, unfolding(crate::specs::Events::publish_in))]
pub fn read_publish(alloc: Global, value: &Value) -> Result<Publish, FieldError>
    ensures { Gives (λ p. p) result (publish_in (view value.now)) }
{
    let top = Blob::new(alloc);
    refuse_unknown(
        alloc,
        &top,
        value,
        &["do", "client", "journal", "messages", "producer"],
    )?;
    let client = read_id(alloc, &top, value, "client")?;
    let journal = read_journal_name(alloc, &top, value, "journal")?;
    let values = read_items(alloc, &top, value, "messages")?;
    let path = Blob::of(alloc, b"messages")?;
    let messages = read_drafts(alloc, &path, values)?;
    let producer = read_number_or(alloc, &top, value, "producer", FIRST_PRODUCER, PRODUCER)?;
    Ok(Publish {
        client,
        journal,
        messages,
        producer,
    })
}
