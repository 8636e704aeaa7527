//! Fragments in a balanced tree, in the order of their names.
//!
//! Each node has the number of fragments below it, by which a place is found and the sides are kept alike, and the
//! greatest end below it, by which a search for an end passes over whole sides. So each call costs the tree's height,
//! but `len` and `end`, which cost nothing.
ghost use Rattle.std.specs.Prelude.{◌≡◌, ◌+◌, ◌^◌, ◌<◌, [], ◌∷◌, ◌++◌, length, slice_get, find, IfOk};
ghost use Rattle.std.specs.Option.{option_copied};
ghost use Rattle.gz_fragment.specs.Fragments.{added, index_end, AreAscending};
ghost use Rattle.gz_fragment.specs.Ends.{end_begun, reaches};
ghost use Rattle.gz_fragment.specs.Trees.{items_of, IsMeasured, IsAlone};

use crate::fragment::Fragment;
use gz_label::NoMemory;
use std::alloc::Global;
use std::cmp::Ordering;
use std::marker::Model;
use std::mem;

/// Fragments in the order of their names, which a contract sees as their list.
#[cycle(tree)]
#[derive(Debug, Drop)]
pub struct Tree {
    root: Root,
}

#[cycle(tree)]
#[derive(Debug, Drop)]
enum Root {
    Empty,
    Top(Box<Node>),
}

/// A fragment with those before and those behind it.
#[cycle(tree)]
#[derive(Debug, Drop)]
pub struct Node {
    left: Tree,
    fragment: Fragment,
    right: Tree,
    count: usize,
    end: u64,
}

impl Model for Tree {
    ghost use Rattle.std.specs.Prelude.{List, length};
    ghost use Rattle.gz_fragment.specs.declared.fragment.Fragment.{Fragment};

    ghost Value = { List Fragment };

    ghost use Rattle.gz_fragment.specs.Trees.{items_of, IsMeasured};

    ghost view = { λ a. items_of a.root };

    ghost invariant = { λ a. IsMeasured a.root };

    ghost size = { length };

    ghost use Rattle.std.proofs.Common.{arith, length-append};

    ghost size_decreases = { λ a h. Prim.grind (arith, length-append) };
}

impl Tree {
    /// No fragment. It takes no memory.
    pub fn new() -> Tree
        ensures { result ≡ [] }
    {
        Tree { root: Root::Empty }
    }

    /// How many fragments there are.
    pub fn len(&self) -> usize
        ensures value { result ≡ length self.now }
        ensures bound { length self.now < 2 ^ 64 }
    {
        match &self.root {
            Root::Empty => 0,
            Root::Top(node) => {
                let count = node.count;
                count
            }
        }
    }

    /// The greatest end, or 0.
    #[tactic(auto, using(crate::proofs::EndLemmas::index_end_append))]
    pub fn end(&self) -> u64
        ensures { result ≡ index_end self.now }
    {
        match &self.root {
            Root::Empty => 0,
            Root::Top(node) => node.end,
        }
    }

    // The top of the tree.
    fn open(self) -> Root
        ensures items { items_of result ≡ self }
        ensures measured { IsMeasured result }
    {
        self.root
    }

    /// The fragment at this place, counted from 0.
    pub fn nth(&self, place: usize) -> Option<&Fragment>
        ensures { option_copied result ≡ slice_get self.now place }
    {
        match &self.root {
            Root::Empty => None,
            Root::Top(node) => {
                let before = node.left.len();
                if place < before {
                    node.left.nth(place)
                } else if place == before {
                    Some(&node.fragment)
                } else {
                    node.right.nth(place - before - 1)
                }
            }
        }
    }

    /// The greatest end of the fragments that begin at the offset or before it, or 0.
    pub fn end_begun(&self, offset: u64) -> u64
        requires { AreAscending self.now }
        ensures { result ≡ end_begun offset self.now }
    {
        match &self.root {
            Root::Empty => 0,
            Root::Top(node) => {
                if offset < node.fragment.name.begin() {
                    node.left.end_begun(offset)
                } else {
                    let left = node.left.end().max(node.fragment.name.end());
                    left.max(node.right.end_begun(offset))
                }
            }
        }
    }

    /// The first fragment that ends at this end or behind it. The end isn't 0.
    pub fn reaching(&self, end: u64) -> Option<&Fragment>
        requires { 0 < end }
        ensures { option_copied result ≡ find (reaches end) self.now }
    {
        match &self.root {
            Root::Empty => None,
            Root::Top(node) => {
                if end <= node.left.end() {
                    node.left.reaching(end)
                } else if end <= node.fragment.name.end() {
                    Some(&node.fragment)
                } else {
                    node.right.reaching(end)
                }
            }
        }
    }
}

impl Node {
    /// A fragment with none before and none behind it.
    pub fn alone(alloc: Global, fragment: Fragment) -> Result<Box<Node>, NoMemory>
        ensures { IfOk result (λ node. IsAlone fragment node.value) }
    {
        let node = Box::new(
            alloc,
            Node {
                left: Tree::new(),
                fragment,
                right: Tree::new(),
                count: 1,
                end: 0,
            },
        )?;
        Ok(node)
    }
}

/// With one more fragment, in its place; the same tree where its name is there already. It takes no memory.
pub fn insert(tree: Tree, new: Box<Node>) -> Tree
    requires alone { (new.value.left ≡ []) × (new.value.right ≡ []) }
    requires ascending { AreAscending tree }
    requires room { length tree + 1 < 2 ^ 64 }
    ensures { result ≡ added new.value.fragment tree }
{
    match tree.open() {
        Root::Empty => sealed(new),
        Root::Top(mut node) => match new.fragment.name.compare(&node.fragment.name) {
            Ordering::Less => {
                let left = mem::replace(&mut node.left, Tree::new());
                node.left = insert(left, new);
                balanced(node)
            }
            Ordering::Equal => sealed(node),
            Ordering::Greater => {
                let right = mem::replace(&mut node.right, Tree::new());
                node.right = insert(right, new);
                balanced(node)
            }
        },
    }
}

// The node as the top of a tree.
#[tactic(auto, using(crate::proofs::EndLemmas::index_end_append))]
fn sealed(mut node: Box<Node>) -> Tree
    requires { length node.value.left + 1 + length node.value.right < 2 ^ 64 }
    ensures { result ≡ node.value.left ++ node.value.fragment ∷ node.value.right }
{
    node.count = node.left.len() + 1 + node.right.len();
    let left = node.left.end().max(node.fragment.name.end());
    node.end = left.max(node.right.end());
    Tree {
        root: Root::Top(node),
    }
}

// The right side's top comes to the top, where there is one.
fn turned_left(mut node: Box<Node>) -> Tree
    requires { length node.value.left + 1 + length node.value.right < 2 ^ 64 }
    ensures { result ≡ node.value.left ++ node.value.fragment ∷ node.value.right }
{
    match mem::replace(&mut node.right, Tree::new()).open() {
        Root::Empty => sealed(node),
        Root::Top(mut top) => {
            node.right = mem::replace(&mut top.left, Tree::new());
            top.left = sealed(node);
            sealed(top)
        }
    }
}

// The left side's top comes to the top, where there is one.
fn turned_right(mut node: Box<Node>) -> Tree
    requires { length node.value.left + 1 + length node.value.right < 2 ^ 64 }
    ensures { result ≡ node.value.left ++ node.value.fragment ∷ node.value.right }
{
    match mem::replace(&mut node.left, Tree::new()).open() {
        Root::Empty => sealed(node),
        Root::Top(mut top) => {
            node.left = mem::replace(&mut top.right, Tree::new());
            top.right = sealed(node);
            sealed(top)
        }
    }
}

// Whether the inner side of a top is too great to be turned over by itself.
fn is_heavy(inner: &Tree, outer: &Tree) -> bool {
    inner.len().saturating_sub(outer.len()) > outer.len()
}

// The same tree, whose left side isn't heavy.
fn leaning_right(tree: Tree) -> Tree
    requires { length tree < 2 ^ 64 }
    ensures { result ≡ tree }
{
    match tree.open() {
        Root::Empty => Tree::new(),
        Root::Top(node) => {
            if is_heavy(&node.left, &node.right) {
                turned_right(node)
            } else {
                sealed(node)
            }
        }
    }
}

// The same tree, whose right side isn't heavy.
fn leaning_left(tree: Tree) -> Tree
    requires { length tree < 2 ^ 64 }
    ensures { result ≡ tree }
{
    match tree.open() {
        Root::Empty => Tree::new(),
        Root::Top(node) => {
            if is_heavy(&node.right, &node.left) {
                turned_left(node)
            } else {
                sealed(node)
            }
        }
    }
}

// The node as the top of a tree, where one side has had one more. Of two sides the greater has, with one added to
// each count, at most three times as many fragments as the lesser.
fn balanced(mut node: Box<Node>) -> Tree
    requires { length node.value.left + 1 + length node.value.right < 2 ^ 64 }
    ensures { result ≡ node.value.left ++ node.value.fragment ∷ node.value.right }
{
    if node.right.len() / 3 > node.left.len() {
        let right = mem::replace(&mut node.right, Tree::new());
        node.right = leaning_right(right);
        return turned_left(node);
    }
    if node.left.len() / 3 > node.right.len() {
        let left = mem::replace(&mut node.left, Tree::new());
        node.left = leaning_left(left);
        return turned_right(node);
    }
    sealed(node)
}
