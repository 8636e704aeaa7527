//! How sets of labels are read.
ghost use Rattle.std.specs.Prelude.{◌≡◌, Ok, Err, true, if◌then◌else◌, IfOk};
ghost use Rattle.std.specs.Int.{w16};
ghost use Rattle.std.specs.List.{list_all};
ghost use Rattle.gz_label.specs.Labels.{are_ascending, is_label, is_label_set};
ghost use Rattle.gz_codec.specs.Reading.{Gives, items_at, counted_at, label_at, labels_at};

use crate::FieldError;
use crate::field::{name_at, short_at};
use gz_label::{Label, LabelSet, NoMemory};
use std::alloc::Global;
use std::cmp::Ordering;

/// The most labels of a set.
const MAX_LABELS: usize = 64;

/// The label at the start of the bytes, and the bytes behind it.
#[tactic(auto, unfolding(crate::specs::Reading::label_at))]
fn label_at(alloc: Global, field: u8, bytes: &[u8]) -> Result<(Label, &[u8]), FieldError>
    ensures { Gives (λ x. (x.0, x.1.now)) result (label_at field bytes.now) }
{
    let (name, rest) = name_at(alloc, field, bytes)?;
    let (value, rest) = name_at(alloc, field, rest)?;
    Ok((Label { name, value }, rest))
}

fn labels_from(
    alloc: Global,
    field: u8,
    count: u16,
    bytes: &[u8],
) -> Result<(Vec<Label>, &[u8]), FieldError>
    ensures { Gives (λ x. (x.0.items, x.1.now)) result (items_at label_at count field bytes.now) }
{
    let mut items = Vec::new(alloc);
    let mut rest = bytes;
    'items: for _ in 0..count {
        let (item, after) = label_at(alloc, field, rest)?;
        items.push(item)?;
        rest = after;
    }
    Ok((items, rest))
}

fn are_ascending(labels: &[Label]) -> bool
    ensures { result ≡ are_ascending labels.now }
{
    let mut rest = labels;
    'labels: while let [first, others @ ..] = rest {
        if let [second, ..] = others {
            if first.cmp(second) != Ordering::Less {
                return false;
            }
        }
        rest = others;
    }
    true
}

fn are_valid(labels: &[Label]) -> bool
    ensures { result ≡ list_all is_label labels.now }
{
    labels.iter().all(|label| label.is_valid())
}

/// Whether the labels are those of a set in its order.
#[tactic(auto, unfolding(gz_label::specs::Labels::is_label_set))]
fn is_label_set(labels: &[Label]) -> bool
    ensures { result ≡ is_label_set labels.now }
{
    are_ascending(labels) && are_valid(labels) && labels.len() <= MAX_LABELS
}

/// The set of the labels.
fn set_of(alloc: Global, labels: Vec<Label>) -> Result<LabelSet, NoMemory>
    requires { is_label_set labels.items ≡ true }
    ensures { IfOk result (λ set. set ≡ labels.items) }
{
    let mut set = LabelSet::new(alloc);
    'labels: for label in labels {
        if let Err(_) = set.insert(label) {
            return Err(NoMemory);
        }
    }
    Ok(set)
}

/// The set of labels at the start of the bytes, and the bytes behind it.
#[tactic(auto, unfolding(crate::specs::Reading::labels_at, crate::specs::Reading::counted_at))]
pub fn labels_at(alloc: Global, field: u8, bytes: &[u8]) -> Result<(LabelSet, &[u8]), FieldError>
    ensures { Gives (λ x. (x.0, x.1.now)) result (labels_at field bytes.now) }
{
    let (count, rest) = short_at(field, bytes)?;
    let (labels, rest) = labels_from(alloc, field, count, rest)?;
    if !is_label_set(labels.as_slice()) {
        return Err(FieldError::Bad { field });
    }
    let set = set_of(alloc, labels)?;
    Ok((set, rest))
}
