//! The index of a journal's fragments.
ghost use Rattle.std.specs.Prelude.{◌≡◌, ◌+◌, [], List, length, slice_get, Option, option_map, OnOk, OnErr, IfOk};
ghost use Rattle.std.specs.Option.{option_copied};
ghost use Rattle.gz_fragment.specs.Fragments.{added, index_end, covering, IsNamed, AreNamed, AreAscending};
ghost use Rattle.gz_fragment.specs.Outcomes.{refusal_of, Gives};

use crate::error::FragmentError;
use crate::fragment::Fragment;
use crate::name::FragmentName;
use crate::tree::{Node, Tree, insert};
use gz_label::Blob;
use sha1::Sha1;
use std::alloc::Global;
use std::marker::Model;
use std::mem;

/// The fragments of a journal, of which a contract sees the list in the order of their names. Each content has the
/// length and the sum that its name gives, and no name stands twice. A content is kept once.
#[derive(Debug, Drop)]
pub struct Index {
    alloc: Global,
    tree: Tree,
}

impl Model for Index {
    ghost use Rattle.std.specs.Prelude.{List};
    ghost use Rattle.gz_fragment.specs.Fragments.{AreNamed, AreAscending};
    ghost use Rattle.gz_fragment.specs.declared.fragment.Fragment.{Fragment};

    ghost Value = { List Fragment };

    ghost view = { λ a. a.tree };

    ghost invariant = { λ a. AreAscending a.tree × AreNamed a.tree };
}

impl Index {
    /// No fragment. It takes no memory.
    pub fn new(alloc: Global) -> Index
        ensures { result ≡ [] }
    {
        Index {
            alloc,
            tree: Tree::new(),
        }
    }

    /// How many fragments there are. It takes no memory.
    pub fn len(&self) -> usize
        ensures value { result ≡ length self.now }
        ensures ascending { AreAscending self.now }
        ensures named { AreNamed self.now }
    {
        self.tree.len()
    }

    /// The greatest end, or 0. It takes no memory.
    pub fn end(&self) -> u64
        ensures { result ≡ index_end self.now }
    {
        self.tree.end()
    }

    /// Name and content at this place of the list, counted from 0; None exactly past its end. It takes no memory.
    pub fn nth(&self, place: usize) -> Option<(&FragmentName, &Blob)>
        ensures { option_map
            (λ found. record { name = found.0.now; content = found.1.now }) result
            ≡ slice_get self.now place }
    {
        match self.tree.nth(place) {
            None => None,
            Some(fragment) => Some((&fragment.name, &fragment.content)),
        }
    }

    /// Of the fragments with `begin <= offset < end` the one with the greatest end, then the least begin, then the
    /// least sum; None exactly where there is none. It takes no memory.
    pub fn covering(&self, offset: u64) -> Option<&Fragment>
        ensures { option_copied result ≡ covering offset self.now }
    {
        let end = self.tree.end_begun(offset);
        if end <= offset {
            return None;
        }
        self.tree.reaching(end)
    }

    /// The name of the fragment that `covering` gives. It takes no memory.
    pub fn covers(&self, offset: u64) -> Option<FragmentName>
        ensures { result ≡ option_map (λ f. f.name) (covering offset self.now) }
    {
        match self.covering(offset) {
            None => None,
            Some(fragment) => Some(fragment.name),
        }
    }

    /// Keeps a content by its name. A name that is there already changes nothing. BadSpan exactly where `end - begin`
    /// isn't the content's length; else Differs exactly where the content's sum isn't the name's. After a refusal
    /// nothing has changed.
    pub fn add(&mut self, name: FragmentName, content: Blob) -> Result<(), FragmentError>
        ensures answer { Gives result (refusal_of name content) }
        ensures ok { OnOk result
            (self.new ≡ added (record { name = name; content = content }) self.old) }
        ensures err { OnErr result (self.new ≡ self.old) }
    {
        check(&name, &content)?;
        if self.tree.len() == usize::MAX {
            return Err(FragmentError::NoMemory);
        }
        let node = Node::alone(self.alloc, Fragment { name, content })?;
        let tree = mem::replace(&mut self.tree, Tree::new());
        self.tree = insert(tree, node);
        Ok(())
    }
}

// Whether the content is the one of which the name is.
fn check(name: &FragmentName, content: &Blob) -> Result<(), FragmentError>
    ensures answer { Gives result (refusal_of name.now content.now) }
    ensures named { OnOk result (IsNamed (record { name = name.now; content = content.now })) }
{
    if content.len() as u64 != name.end() - name.begin() {
        return Err(FragmentError::BadSpan);
    }
    let found = Sha1::digest(content.as_slice());
    if found != name.sum() {
        return Err(FragmentError::Differs {
            name: *name,
            sum: name.sum(),
            found,
        });
    }
    Ok(())
}
