//! The items of a text, with a comma between each two.
ghost use Rattle.std.specs.Prelude.{◌≡◌, ◌≤◌, ◌+◌, length, drop, Ok};
ghost use Rattle.gz_label.specs.Outcomes.{Gives};
ghost use Rattle.gz_label.specs.Items.{place_of, items_of, first_bad};
ghost use Rattle.gz_label.specs.Labels.{is_label_item, label_in, label_of};
ghost use Rattle.gz_label.specs.Selectors.{is_term, name_term, label_term, term_in, bang_first, bang_last, is_not, is_or};
ghost use Rattle.gz_label.specs.Forms.{fits};

use crate::label::{is_label, is_label_name, read_label_name};
use crate::{Label, LabelError, Term};
use std::alloc::Global;

/// What an item is to say.
#[derive(Clone, Copy, Debug, PartialEq, Eq)]
pub enum Form {
    /// `NAME=VALUE`.
    Label,
    /// `NAME=VALUE`, `NAME!=VALUE`, `NAME` or `!NAME`.
    Term,
}

/// The first place of the byte, or the length where it isn't there.
pub fn find(text: &[u8], byte: u8) -> usize
    ensures value { result ≡ place_of byte text.now }
    ensures within { result ≤ length text.now }
{
    for (i, other) in text.iter().enumerate() {
        if *other == byte {
            return i;
        }
    }
    text.len()
}

/// What stands behind the place.
pub fn behind(text: &[u8], place: usize) -> &[u8]
    ensures { result.now ≡ drop (place + 1) text.now }
{
    if place < text.len() {
        &text[place + 1..]
    } else {
        &text[text.len()..]
    }
}

/// The label that the item says, or None.
pub fn read_label(alloc: Global, item: &[u8]) -> Result<Option<Label>, LabelError>
    ensures { Gives (λ label. label) result (Ok (label_in item.now)) }
{
    let place = find(item, b'=');
    if place >= item.len() {
        return Ok(None);
    }
    let label = Label::of(alloc, &item[..place], behind(item, place))?;
    Ok(label)
}

fn is_label_item(item: &[u8]) -> bool
    ensures { result ≡ is_label_item item.now }
{
    let place = find(item, b'=');
    place < item.len() && is_label(&item[..place], behind(item, place))
}

fn is_bang_first(text: &[u8]) -> bool
    ensures { result ≡ bang_first text.now }
{
    text.len() > 0 && text[0] == b'!'
}

fn is_bang_last(text: &[u8]) -> bool
    ensures { result ≡ bang_last text.now }
{
    text.len() > 0 && text[text.len() - 1] == b'!'
}

/// The term that a text without `=` says, or None.
fn read_name_term(alloc: Global, text: &[u8]) -> Result<Option<Term>, LabelError>
    ensures { Gives (λ term. term) result (Ok (name_term text.now)) }
{
    if is_label_name(text) {
        let name = read_label_name(alloc, text)?;
        return Ok(Some(Term::Has(name)));
    }
    if is_bang_first(text) && is_label_name(behind(text, 0)) {
        let name = read_label_name(alloc, behind(text, 0))?;
        return Ok(Some(Term::HasNo(name)));
    }
    Ok(None)
}

/// The term that a text and a value say that stand before and behind a `=`, or None.
fn read_label_term(alloc: Global, name: &[u8], value: &[u8]) -> Result<Option<Term>, LabelError>
    ensures { Gives (λ term. term) result (Ok (label_term name.now value.now)) }
{
    if let Some(label) = Label::of(alloc, name, value)? {
        return Ok(Some(Term::Is(label)));
    }
    if !is_bang_last(name) {
        return Ok(None);
    }
    match Label::of(alloc, &name[..name.len() - 1], value)? {
        Some(label) => Ok(Some(Term::IsNot(label))),
        None => Ok(None),
    }
}

/// The term that the item says, or None.
pub fn read_term(alloc: Global, item: &[u8]) -> Result<Option<Term>, LabelError>
    ensures { Gives (λ term. term) result (Ok (term_in item.now)) }
{
    let place = find(item, b'=');
    if place >= item.len() {
        let term = read_name_term(alloc, item)?;
        return Ok(term);
    }
    let term = read_label_term(alloc, &item[..place], behind(item, place))?;
    Ok(term)
}

fn is_term(item: &[u8]) -> bool
    ensures { result ≡ is_term item.now }
{
    let place = find(item, b'=');
    if place >= item.len() {
        return is_label_name(item) || is_bang_first(item) && is_label_name(behind(item, 0));
    }
    let name = &item[..place];
    let value = behind(item, place);
    is_label(name, value) || is_bang_last(name) && is_label(&name[..name.len() - 1], value)
}

impl Form {
    fn fits(self, item: &[u8]) -> bool
        ensures { result ≡ fits self item.now }
    {
        match self {
            Form::Label => is_label_item(item),
            Form::Term => is_term(item),
        }
    }
}

/// Where the first item of the text begins that isn't of the form, or None.
pub fn first_bad(form: Form, text: &[u8]) -> Option<usize>
    ensures { result ≡ first_bad (fits form) 0 (items_of text.now) }
{
    let mut rest = text;
    let mut goes_on = text.len() > 0;
    'items: while goes_on {
        let end = find(rest, b',');
        if !form.fits(&rest[..end]) {
            return Some(text.len() - rest.len());
        }
        goes_on = end < rest.len();
        rest = behind(rest, end);
    }
    None
}
