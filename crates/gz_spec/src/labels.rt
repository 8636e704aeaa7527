//! Labels as JSON: an object from label names to lists of values.
ghost use Rattle.std.specs.Prelude.{◌≡◌, ◌≤◌, ◌++◌, length, [], IsTrue};
ghost use Rattle.serde_json.specs.View.{view, items_view, members_view};
ghost use Rattle.gz_label.specs.Labels.{is_label_name, is_label_value, with_label};
ghost use Rattle.gz_fields.specs.Outcomes.{Gives};
ghost use Rattle.gz_spec.specs.Labels.{label_at, labels_from, labels_named, all_labels, fitting, put_each, labels_in, labels_at};
ghost use Rattle.gz_fields.specs.Behind.{behind};

use gz_fields::{FieldError, path_below, path_of_item};
use gz_label::{Blob, Label, LabelError, LabelSet, Name};
use serde_json::{Map, Value};
use std::alloc::Global;

/// Whether the text is a label's name, which is short.
#[tactic(auto, unfolding(gz_label::specs::Labels::is_label_name))]
fn is_name(text: &[u8]) -> bool
    ensures value { result ≡ is_label_name text.now }
    ensures short { IsTrue result → length text.now ≤ 1024 }
{
    let holds = gz_label::is_label_name(text);
    holds
}

/// Whether the text is a label's value, which is short.
#[tactic(auto, unfolding(gz_label::specs::Labels::is_label_value))]
fn is_value(text: &[u8]) -> bool
    ensures value { result ≡ is_label_value text.now }
    ensures short { IsTrue result → length text.now ≤ 1024 }
{
    let holds = gz_label::is_label_value(text);
    holds
}

/// The label of this name whose value stands here.
#[tactic(auto, unfolding(crate::specs::Labels::label_at))]
fn read_label(alloc: Global, path: Blob, name: &str, value: &Value) -> Result<Label, FieldError>
    requires { length name.now ≤ 1024 }
    ensures { Gives (λ label. label) result (label_at path name.now (view value.now)) }
{
    let Some(text) = value.as_str() else {
        return Err(FieldError::BadField { path });
    };
    if !is_value(text.as_bytes()) {
        return Err(FieldError::BadName { path });
    }
    let name = Name::of(alloc, name)?;
    let value = Name::of(alloc, text)?;
    Ok(Label { name, value })
}

/// Puts the labels of this name, by their values, behind those that are there.
fn read_values(
    alloc: Global,
    path: &Blob,
    name: &str,
    values: &[Value],
    labels: &mut Vec<Label>,
) -> Result<(), FieldError>
    requires { length name.now ≤ 1024 }
    ensures { Gives
        (λ _. labels.new.items) result
        (behind labels.old.items (labels_from path.now name.now 0 (items_view values.now))) }
{
    for (i, value) in values.iter().enumerate() {
        let place = path_of_item(alloc, path, i)?;
        let label = read_label(alloc, place, name, value)?;
        labels.push(label)?;
    }
    Ok(())
}

/// Puts the labels of this name behind those that are there.
#[tactic(auto, unfolding(crate::specs::Labels::labels_named))]
fn read_labels_named(
    alloc: Global,
    path: Blob,
    name: &str,
    values: &Value,
    labels: &mut Vec<Label>,
) -> Result<(), FieldError>
    ensures { Gives
        (λ _. labels.new.items) result
        (behind labels.old.items (labels_named path name.now (view values.now))) }
{
    if !is_name(name.as_bytes()) {
        return Err(FieldError::BadName { path });
    }
    let Some(values) = values.as_array() else {
        return Err(FieldError::BadField { path });
    };
    read_values(alloc, &path, name, values.as_slice(), labels)?;
    Ok(())
}

/// The labels of each name, in the order of the names.
fn read_all_labels(
    alloc: Global,
    path: &Blob,
    members: &Map<String, Value>,
) -> Result<Vec<Label>, FieldError>
    ensures { Gives
        (λ labels. labels.items) result (all_labels path.now (members_view members.now.entries)) }
{
    let mut labels = Vec::new(alloc);
    for (name, values) in members {
        let name = name.as_str();
        let place = path_below(alloc, path, name)?;
        read_labels_named(alloc, place, name, values, &mut labels)?;
    }
    Ok(labels)
}

/// The set of the labels.
fn set_of(alloc: Global, path: &Blob, labels: &[Label]) -> Result<LabelSet, FieldError>
    ensures { Gives (λ set. set) result (put_each path.now [] labels.now) }
{
    let mut set = LabelSet::new(alloc);
    for label in labels {
        let copied = label.copy()?;
        put_label(path, &mut set, copied)?;
    }
    Ok(set)
}

/// Puts the label into the set, which has room for so many.
fn put_label(path: &Blob, set: &mut LabelSet, label: Label) -> Result<(), FieldError>
    ensures { Gives (λ _. set.new) result (fitting path.now (with_label label set.old)) }
{
    match set.insert(label) {
        Ok(()) => Ok(()),
        Err(LabelError::BadName { .. }) => Err(FieldError::BadName { path: path.copy()? }),
        Err(LabelError::TooMany) => Err(FieldError::BadNumber { path: path.copy()? }),
        Err(LabelError::NoMemory) => Err(FieldError::NoMemory),
    }
}

#[tactic(auto, unfolding(crate::specs::Labels::labels_in))]
fn read_labels_in(alloc: Global, path: &Blob, value: &Value) -> Result<LabelSet, FieldError>
    ensures { Gives (λ set. set) result (labels_in path.now (view value.now)) }
{
    let Some(members) = value.as_object() else {
        return Err(FieldError::BadField { path: path.copy()? });
    };
    let labels = read_all_labels(alloc, path, members)?;
    let set = set_of(alloc, path, labels.as_slice())?;
    Ok(set)
}

/// The labels of the object, and none where they are absent.
pub fn read_labels(alloc: Global, path: &Blob, value: &Value) -> Result<LabelSet, FieldError>
    ensures { Gives (λ set. set) result (labels_at path.now (view value.now)) }
{
    let Some(labels) = value.get("labels") else {
        let none = LabelSet::new(alloc);
        return Ok(none);
    };
    let place = path_below(alloc, path, "labels")?;
    let set = read_labels_in(alloc, &place, labels)?;
    Ok(set)
}
