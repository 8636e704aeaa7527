//! Sets of labels.
ghost use Rattle.std.specs.Prelude.{◌≡◌, ◌≤◌, [], length, take, drop, filter, not, ◌++◌, option_to_list, Ok, IfOk, OnOk, OnErr, IsTrue, MatchOption};
ghost use Rattle.std.specs.List.{insert, list_all};
ghost use Rattle.gz_label.specs.Outcomes.{Gives};
ghost use Rattle.gz_label.specs.Labels.{is_label, is_label_set, put_label, put_labels, with_label, labels_named, from_name, named_prefix, label_in, labels_in, has_label, has_name, set_of, print_of, print_more, spelling, takes, is_taken, labels_after, HoldsAfter};
ghost use Rattle.gz_label.specs.Items.{items_of, limited};

use crate::items::{Form, behind, find, first_bad, read_label};
use crate::{Blob, Label, LabelError, NoMemory};
use std::alloc::Global;
use std::cmp::Ordering;
use std::marker::Model;

/// The most labels of a set.
const MAX_LABELS: usize = 64;

/// At most 64 labels, which a contract sees as the ascending list of them: by name, and then by value.
#[derive(Debug, Drop)]
pub struct LabelSet {
    labels: Vec<Label>,
}

impl Model for LabelSet {
    ghost use Rattle.std.specs.Prelude.{List, IsTrue};
    ghost use Rattle.gz_label.specs.declared.label.Label.{Label};
    ghost use Rattle.gz_label.specs.Labels.{is_label_set};

    ghost Value = { List Label };

    ghost view = { λ a. a.labels.items };

    ghost invariant = { λ a. IsTrue (is_label_set a.labels.items) };
}

/// The place that the label would take among ascending ones, or None where it is there.
fn place_of(label: &Label, labels: &[Label]) -> Option<usize>
    ensures { MatchOption result (put_label label.now labels.now ≡ labels.now)
        (λ i. (i ≤ length labels.now)
        × (put_label label.now labels.now ≡ insert labels.now i label.now)) }
{
    for (i, other) in labels.iter().enumerate() {
        match label.cmp(other) {
            Ordering::Less => return Some(i),
            Ordering::Equal => return None,
            Ordering::Greater => {}
        }
    }
    Some(labels.len())
}

/// How many of the ascending labels have lesser names.
fn count_lesser(name: &[u8], labels: &[Label]) -> usize
    ensures value { drop result labels.now ≡ from_name name.now labels.now }
    ensures within { result ≤ length labels.now }
{
    let mut count = 0;
    for label in labels {
        match label.name.as_slice().cmp(name) {
            Ordering::Less => count += 1,
            Ordering::Equal | Ordering::Greater => break,
        }
    }
    count
}

/// How many of the first labels have the name.
fn count_named(name: &[u8], labels: &[Label]) -> usize
    ensures value { take result labels.now ≡ named_prefix name.now labels.now }
    ensures within { result ≤ length labels.now }
{
    let mut count = 0;
    for label in labels {
        if label.name.as_slice() != name {
            break;
        }
        count += 1;
    }
    count
}

/// Whether the second label takes the first.
fn takes(label: &Label, taker: &Label) -> bool
    ensures { result ≡ takes label.now taker.now }
{
    let value = taker.value.as_slice();
    taker.name.as_slice() == label.name.as_slice()
        && (value.len() == 0 || value == label.value.as_slice())
}

fn append_label(text: &mut Blob, label: &Label) -> Result<(), NoMemory>
    ensures { OnOk result (text.new ≡ text.old ++ spelling label.now) }
{
    text.append(label.name.as_slice())?;
    text.append(b"=")?;
    text.append(label.value.as_slice())?;
    Ok(())
}

fn append_more(text: &mut Blob, labels: &[Label]) -> Result<(), NoMemory>
    ensures { OnOk result (text.new ≡ text.old ++ print_more labels.now) }
{
    for label in labels {
        text.append(b",")?;
        append_label(text, label)?;
    }
    Ok(())
}

/// The labels that none of the set takes.
fn copy_untaken(alloc: Global, labels: &[Label], take: &LabelSet) -> Result<Vec<Label>, NoMemory>
    ensures { IfOk result
        (λ copied. copied.items ≡ filter (λ l. not (is_taken take.now l)) labels.now) }
{
    let mut copied = Vec::new(alloc);
    for label in labels {
        if !take.takes(label) {
            let one = label.copy()?;
            copied.push(one)?;
        }
    }
    Ok(copied)
}

fn copy_labels(alloc: Global, labels: &[Label]) -> Result<Vec<Label>, NoMemory>
    ensures { IfOk result (λ copied. copied.items ≡ labels.now) }
{
    let mut copied = Vec::new(alloc);
    for label in labels {
        let one = label.copy()?;
        copied.push(one)?;
    }
    Ok(copied)
}

impl LabelSet {
    /// The empty set. It takes no memory.
    pub fn new(alloc: Global) -> LabelSet
        ensures { result ≡ [] }
    {
        LabelSet {
            labels: Vec::new(alloc),
        }
    }

    /// How many labels there are, 0 to 64.
    pub fn len(&self) -> usize
        ensures { result ≡ length self.now }
    {
        self.labels.len()
    }

    /// The labels, by name and then by value. It takes no memory.
    pub fn as_slice(&self) -> &[Label]
        ensures value { result.now ≡ self.now }
        ensures valid { IsTrue (is_label_set self.now) }
    {
        self.labels.as_slice()
    }

    /// The labels of the name, of which there may be none, by value. It takes no memory.
    #[tactic(auto, using(crate::proofs::Named::named_prefix_of_set))]
    pub fn labels_named(&self, name: &[u8]) -> &[Label]
        ensures { result.now ≡ labels_named name.now self.now }
    {
        let labels = self.as_slice();
        let (_lesser, rest) = labels.split_at(count_lesser(name, labels));
        let (named, _greater) = rest.split_at(count_named(name, rest));
        named
    }

    /// Puts the label in its place, if it isn't there. BadName{0} where it isn't valid, else TooMany where
    /// the set would have 65 labels. After an error nothing has changed.
    #[tactic(auto, unfolding(crate::specs::Labels::with_label))]
    pub fn insert(&mut self, label: Label) -> Result<(), LabelError>
        ensures value { Gives (λ _. self.new) result (with_label label self.old) }
        ensures err { OnErr result (self.new ≡ self.old) }
    {
        if !label.is_valid() {
            return Err(LabelError::BadName { at: 0 });
        }
        if let Some(i) = place_of(&label, self.labels.as_slice()) {
            if self.labels.len() >= MAX_LABELS {
                return Err(LabelError::TooMany);
            }
            self.labels.insert(i, label)?;
        }
        Ok(())
    }

    /// Whether the label is in the set. It takes no memory.
    pub fn has(&self, label: &Label) -> bool
        ensures { result ≡ has_label label.now self.now }
    {
        self.as_slice().iter().any(|other| other.is_same(label))
    }

    /// Whether the name has a value. It takes no memory.
    pub fn has_name(&self, name: &[u8]) -> bool
        ensures { result ≡ has_name name.now self.now }
    {
        self.as_slice()
            .iter()
            .any(|other| other.name.as_slice() == name)
    }

    /// Puts in the label that the item says, if it says one.
    fn add_item(&mut self, alloc: Global, item: &[u8]) -> Result<(), LabelError>
        ensures { Gives
            (λ _. self.new) result
            (limited (put_labels (option_to_list (label_in item.now)) self.old)) }
    {
        let _ = &self.labels;
        match read_label(alloc, item)? {
            Some(label) => self.insert(label),
            None => Ok(()),
        }
    }

    /// Puts in the labels that the items of the text say.
    fn add_items(&mut self, alloc: Global, text: &[u8]) -> Result<(), LabelError>
        ensures { Gives
            (λ _. self.new) result (limited (put_labels (labels_in (items_of text.now)) self.old)) }
    {
        let mut rest = text;
        let mut goes_on = text.len() > 0;
        'items: while goes_on {
            let end = find(rest, b',');
            self.add_item(alloc, &rest[..end])?;
            goes_on = end < rest.len();
            rest = behind(rest, end);
        }
        let _ = &self.labels;
        Ok(())
    }

    /// Puts in the labels of the other set.
    fn add_all(&mut self, labels: &[Label]) -> Result<(), LabelError>
        requires { IsTrue (list_all is_label labels.now) }
        ensures { Gives (λ _. self.new) result (limited (put_labels labels.now self.old)) }
    {
        for label in labels {
            let one = label.copy()?;
            self.insert(one)?;
        }
        let _ = &self.labels;
        Ok(())
    }

    /// The set that the text says: items `NAME=VALUE` with a comma between each two, or none where the text
    /// is empty. BadName with the first byte of the first item that is no label, else TooMany where there are
    /// more than 64 distinct labels.
    pub fn read(alloc: Global, text: &[u8]) -> Result<LabelSet, LabelError>
        ensures { Gives (λ set. set) result (set_of text.now) }
    {
        if let Some(at) = first_bad(Form::Label, text) {
            return Err(LabelError::BadName { at });
        }
        let mut set = LabelSet::new(alloc);
        set.add_items(alloc, text)?;
        Ok(set)
    }

    /// The items `NAME=VALUE`, by name and then by value, with a comma between each two. Reading gives the
    /// set back.

    pub fn print(&self) -> Result<Blob, NoMemory>
        ensures value { IfOk result (λ text. text ≡ print_of self.now) }
        ensures read { IfOk result (λ text. set_of text ≡ Ok self.now) }
    {
        let mut text = Blob::new(*self.labels.allocator());
        match self.as_slice() {
            [] => Ok(text),
            [first, rest @ ..] => {
                append_label(&mut text, first)?;
                append_more(&mut text, rest)?;
                Ok(text)
            }
        }
    }

    /// The set after a change: first every label of `take` goes, where one with an empty value takes all of
    /// its name, then those of `add` come. TooMany where more than 64 would be there.
    #[tactic(auto, using(crate::proofs::Sets::valid_of_set))]
    pub fn apply(&self, take: &LabelSet, add: &LabelSet) -> Result<LabelSet, LabelError>
        ensures value { Gives
            (λ set. set) result (limited (labels_after self.now take.now add.now)) }
        ensures members { IfOk result (λ set. HoldsAfter set self.now take.now add.now) }
    {
        let mut set = self.without(take)?;
        set.add_all(add.as_slice())?;
        Ok(set)
    }

    /// The set without what is taken.
    fn without(&self, take: &LabelSet) -> Result<LabelSet, NoMemory>
        ensures { IfOk result (λ set. set ≡ filter (λ l. not (is_taken take.now l)) self.now) }
    {
        let labels = copy_untaken(*self.labels.allocator(), self.labels.as_slice(), take)?;
        Ok(LabelSet { labels })
    }

    /// Whether one of these takes the label.
    fn takes(&self, label: &Label) -> bool
        ensures { result ≡ is_taken self.now label.now }
    {
        self.as_slice().iter().any(|taker| takes(label, taker))
    }

    /// An equal value.
    pub fn copy(&self) -> Result<LabelSet, NoMemory>
        ensures { IfOk result (λ set. set ≡ self.now) }
    {
        let labels = copy_labels(*self.labels.allocator(), self.labels.as_slice())?;
        Ok(LabelSet { labels })
    }
}
