//! Selectors of label sets.
ghost use Rattle.std.specs.Prelude.{◌≡◌, ◌≤◌, [], length, IfOk, OnErr, option_to_list};
ghost use Rattle.std.specs.List.{list_any};
ghost use Rattle.gz_label.specs.Outcomes.{Gives};
ghost use Rattle.gz_label.specs.Items.{items_of, limited};
ghost use Rattle.gz_label.specs.Selectors.{holds_of, matches, same_term, with_term, with_terms, term_in, terms_in, selector_of};

use crate::items::{Form, behind, find, first_bad, read_term};
use crate::{Label, LabelError, LabelSet, Name, NoMemory};
use std::alloc::Global;
use std::marker::Model;

/// The most terms of a selector.
const MAX_TERMS: usize = 64;

/// What a selector asks of a set.
#[derive(Debug, Drop)]
pub enum Term {
    /// `NAME=VALUE`: the label is in the set.
    Is(Label),
    /// `NAME!=VALUE`: the label isn't in the set. The name may have other values, or none.
    IsNot(Label),
    /// `NAME`: the name has a value.
    Has(Name),
    /// `!NAME`: the name has no value.
    HasNo(Name),
}

/// At most 64 distinct terms, which a contract sees as their list, in the order in which they were said.
#[derive(Debug, Drop)]
pub struct Selector {
    terms: Vec<Term>,
}

impl Model for Selector {
    ghost use Rattle.std.specs.Prelude.{List, ◌≤◌, length};
    ghost use Rattle.gz_label.specs.declared.selector.Term.{Term};

    ghost Value = { List Term };

    ghost view = { λ a. a.terms.items };

    ghost invariant = { λ a. length a.terms.items ≤ 64 };
}

impl Term {
    /// Whether the term holds of the set. It takes no memory.
    pub fn holds_of(&self, set: &LabelSet) -> bool
        ensures { result ≡ holds_of set.now self.now }
    {
        match self {
            Term::Is(label) => set.has(label),
            Term::IsNot(label) => !set.has(label),
            Term::Has(name) => set.has_name(name.as_slice()),
            Term::HasNo(name) => !set.has_name(name.as_slice()),
        }
    }

    /// Whether the two are equal. It takes no memory.
    pub fn is_same(&self, other: &Term) -> bool
        ensures { result ≡ same_term self.now other.now }
    {
        match (self, other) {
            (Term::Is(label), Term::Is(other)) => label.is_same(other),
            (Term::IsNot(label), Term::IsNot(other)) => label.is_same(other),
            (Term::Has(name), Term::Has(other)) => name.as_slice() == other.as_slice(),
            (Term::HasNo(name), Term::HasNo(other)) => name.as_slice() == other.as_slice(),
            _ => false,
        }
    }

    /// An equal value.
    pub fn copy(&self) -> Result<Term, NoMemory>
        ensures { IfOk result (λ term. term ≡ self.now) }
    {
        match self {
            Term::Is(label) => Ok(Term::Is(label.copy()?)),
            Term::IsNot(label) => Ok(Term::IsNot(label.copy()?)),
            Term::Has(name) => Ok(Term::Has(name.copy()?)),
            Term::HasNo(name) => Ok(Term::HasNo(name.copy()?)),
        }
    }
}

fn is_among(term: &Term, terms: &[Term]) -> bool
    ensures { result ≡ list_any (same_term term.now) terms.now }
{
    terms.iter().any(|other| term.is_same(other))
}

fn copy_terms(alloc: Global, terms: &[Term]) -> Result<Vec<Term>, NoMemory>
    ensures { IfOk result (λ copied. copied.items ≡ terms.now) }
{
    let mut copied = Vec::new(alloc);
    for term in terms {
        let one = term.copy()?;
        copied.push(one)?;
    }
    Ok(copied)
}

impl Selector {
    /// No terms, so that it matches every set. It takes no memory.
    pub fn new(alloc: Global) -> Selector
        ensures { result ≡ [] }
    {
        Selector {
            terms: Vec::new(alloc),
        }
    }

    /// The selector that the text says: terms with a comma between each two, or none where the text is
    /// empty. BadName with the first byte of the first item that is no term, else TooMany where there are
    /// more than 64 distinct terms.
    pub fn read(alloc: Global, text: &[u8]) -> Result<Selector, LabelError>
        ensures { Gives (λ selector. selector) result (selector_of text.now) }
    {
        if let Some(at) = first_bad(Form::Term, text) {
            return Err(LabelError::BadName { at });
        }
        let mut selector = Selector::new(alloc);
        selector.add_items(alloc, text)?;
        Ok(selector)
    }

    /// The terms, in the order in which they were said. It takes no memory.
    pub fn as_slice(&self) -> &[Term]
        ensures value { result.now ≡ self.now }
        ensures few { length self.now ≤ 64 }
    {
        self.terms.as_slice()
    }

    /// Whether every term holds of the set. It takes no memory.
    pub fn matches(&self, set: &LabelSet) -> bool
        ensures { result ≡ matches self.now set.now }
    {
        self.as_slice().iter().all(|term| term.holds_of(set))
    }

    /// An equal value.
    pub fn copy(&self) -> Result<Selector, NoMemory>
        ensures { IfOk result (λ selector. selector ≡ self.now) }
    {
        let terms = copy_terms(*self.terms.allocator(), self.terms.as_slice())?;
        Ok(Selector { terms })
    }

    /// Puts the term behind the others, unless it is among them. TooMany where it would be the 65th.
    pub fn insert(&mut self, term: Term) -> Result<(), LabelError>
        ensures value { Gives (λ _. self.new) result (limited (with_term term self.old)) }
        ensures err { OnErr result (self.new ≡ self.old) }
    {
        if is_among(&term, self.terms.as_slice()) {
            return Ok(());
        }
        if self.terms.len() >= MAX_TERMS {
            return Err(LabelError::TooMany);
        }
        self.terms.push(term)?;
        Ok(())
    }

    /// Puts in the term that the item says, if it says one.
    fn add_item(&mut self, alloc: Global, item: &[u8]) -> Result<(), LabelError>
        ensures { Gives
            (λ _. self.new) result
            (limited (with_terms (option_to_list (term_in item.now)) self.old)) }
    {
        let _ = &self.terms;
        match read_term(alloc, item)? {
            Some(term) => self.insert(term),
            None => Ok(()),
        }
    }

    /// Puts in the terms that the items of the text say.
    fn add_items(&mut self, alloc: Global, text: &[u8]) -> Result<(), LabelError>
        ensures { Gives
            (λ _. self.new) result (limited (with_terms (terms_in (items_of text.now)) self.old)) }
    {
        let mut rest = text;
        let mut goes_on = text.len() > 0;
        'items: while goes_on {
            let end = find(rest, b',');
            self.add_item(alloc, &rest[..end])?;
            goes_on = end < rest.len();
            rest = behind(rest, end);
        }
        let _ = &self.terms;
        Ok(())
    }
}
