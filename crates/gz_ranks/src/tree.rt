//! Numbers in a balanced tree, in ascending order.
//!
//! Each node has how many numbers are below it, by which a place is found and the sides are kept alike. So each call
//! costs the tree's height, but `len`, which costs nothing.
ghost use Rattle.std.specs.Prelude.{◌≡◌, ◌+◌, ◌^◌, ◌<◌, [], ◌∷◌, ◌++◌, length, slice_get, IfOk};
ghost use Rattle.gz_ranks.specs.Numbers.{AreAscending, without};
ghost use Rattle.gz_ranks.specs.Trees.{items_of, IsCounted, IsAlone};

use gz_label::NoMemory;
use std::alloc::Global;
use std::marker::Model;
use std::mem;

/// Numbers in ascending order, which a contract sees as their list.
#[cycle(tree)]
#[derive(Debug, Drop)]
pub struct Tree {
    root: Root,
}

#[cycle(tree)]
#[derive(Debug, Drop)]
enum Root {
    Empty,
    Top(Box<Node>),
}

/// A number with those before and those behind it.
#[cycle(tree)]
#[derive(Debug, Drop)]
pub struct Node {
    left: Tree,
    number: u64,
    right: Tree,
    count: usize,
}

impl Model for Tree {
    ghost use Rattle.std.specs.Prelude.{List, ℕ, length};

    ghost Value = { List ℕ };

    ghost use Rattle.gz_ranks.specs.Trees.{items_of, IsCounted};

    ghost view = { λ a. items_of a.root };

    ghost invariant = { λ a. IsCounted a.root };

    ghost size = { length };

    ghost use Rattle.std.proofs.Common.{arith, length-append};

    ghost size_decreases = { λ a h. Prim.grind (arith, length-append) };
}

impl Tree {
    /// No number. It takes no memory.
    pub fn new() -> Tree
        ensures { result ≡ [] }
    {
        Tree { root: Root::Empty }
    }

    /// How many numbers there are.
    pub fn len(&self) -> usize
        ensures value { result ≡ length self.now }
        ensures bound { length self.now < 2 ^ 64 }
    {
        match &self.root {
            Root::Empty => 0,
            Root::Top(node) => {
                let count = node.count;
                count
            }
        }
    }

    // The top of the tree.
    fn open(self) -> Root
        ensures items { items_of result ≡ self }
        ensures counted { IsCounted result }
    {
        self.root
    }

    /// The number at this place, counted from 0.
    pub fn nth(&self, place: usize) -> Option<u64>
        ensures { result ≡ slice_get self.now place }
    {
        match &self.root {
            Root::Empty => None,
            Root::Top(node) => {
                let before = node.left.len();
                if place < before {
                    node.left.nth(place)
                } else if place == before {
                    Some(node.number)
                } else {
                    node.right.nth(place - before - 1)
                }
            }
        }
    }
}

impl Node {
    /// A number with none before and none behind it.
    pub fn alone(alloc: Global, number: u64) -> Result<Box<Node>, NoMemory>
        ensures number { IfOk result (λ node. node.value.number ≡ number) }
        ensures alone { IfOk result (λ node. IsAlone node.value) }
    {
        let node = Box::new(
            alloc,
            Node {
                left: Tree::new(),
                number,
                right: Tree::new(),
                count: 1,
            },
        )?;
        Ok(node)
    }
}

/// With one more at the end. It takes no memory.
pub fn with_last(tree: Tree, new: Box<Node>) -> Tree
    requires alone { IsAlone new.value }
    requires room { length tree + 1 < 2 ^ 64 }
    ensures { result ≡ tree ++ new.value.number ∷ [] }
{
    match tree.open() {
        Root::Empty => sealed(new),
        Root::Top(mut node) => {
            let right = mem::replace(&mut node.right, Tree::new());
            node.right = with_last(right, new);
            balanced(node)
        }
    }
}

/// Without this number. It takes no memory.
pub fn removed(tree: Tree, number: u64) -> Tree
    requires ascending { AreAscending tree }
    requires room { length tree < 2 ^ 64 }
    ensures { result ≡ without number tree }
{
    match tree.open() {
        Root::Empty => Tree::new(),
        Root::Top(mut node) => {
            if number < node.number {
                let left = mem::replace(&mut node.left, Tree::new());
                node.left = removed(left, number);
                balanced(node)
            } else if number == node.number {
                joined(node)
            } else {
                let right = mem::replace(&mut node.right, Tree::new());
                node.right = removed(right, number);
                balanced(node)
            }
        }
    }
}

// What is before the node and what is behind it, without the node's own number.
fn joined(mut node: Box<Node>) -> Tree
    requires { length node.value.left + 1 + length node.value.right < 2 ^ 64 }
    ensures { result ≡ node.value.left ++ node.value.right }
{
    match mem::replace(&mut node.right, Tree::new()).open() {
        Root::Empty => mem::replace(&mut node.left, Tree::new()),
        Root::Top(top) => {
            let parts = split_first(top);
            node.number = parts.first;
            node.right = parts.rest;
            balanced(node)
        }
    }
}

// A first number, and those behind it.
#[derive(Drop)]
struct Parted {
    first: u64,
    rest: Tree,
}

// The first number of the node's, and the others.
fn split_first(mut node: Box<Node>) -> Parted
    requires { length node.value.left + 1 + length node.value.right < 2 ^ 64 }
    ensures { result.first ∷ result.rest ≡ node.value.left ++ node.value.number ∷ node.value.right }
{
    match mem::replace(&mut node.left, Tree::new()).open() {
        Root::Empty => Parted {
            first: node.number,
            rest: mem::replace(&mut node.right, Tree::new()),
        },
        Root::Top(top) => {
            let before = split_first(top);
            node.left = before.rest;
            Parted {
                first: before.first,
                rest: balanced(node),
            }
        }
    }
}

// The node as the top of a tree.
fn sealed(mut node: Box<Node>) -> Tree
    requires { length node.value.left + 1 + length node.value.right < 2 ^ 64 }
    ensures { result ≡ node.value.left ++ node.value.number ∷ node.value.right }
{
    node.count = node.left.len() + 1 + node.right.len();
    Tree {
        root: Root::Top(node),
    }
}

// The right side's top comes to the top, where there is one.
fn turned_left(mut node: Box<Node>) -> Tree
    requires { length node.value.left + 1 + length node.value.right < 2 ^ 64 }
    ensures { result ≡ node.value.left ++ node.value.number ∷ node.value.right }
{
    match mem::replace(&mut node.right, Tree::new()).open() {
        Root::Empty => sealed(node),
        Root::Top(mut top) => {
            node.right = mem::replace(&mut top.left, Tree::new());
            top.left = sealed(node);
            sealed(top)
        }
    }
}

// The left side's top comes to the top, where there is one.
fn turned_right(mut node: Box<Node>) -> Tree
    requires { length node.value.left + 1 + length node.value.right < 2 ^ 64 }
    ensures { result ≡ node.value.left ++ node.value.number ∷ node.value.right }
{
    match mem::replace(&mut node.left, Tree::new()).open() {
        Root::Empty => sealed(node),
        Root::Top(mut top) => {
            node.left = mem::replace(&mut top.right, Tree::new());
            top.right = sealed(node);
            sealed(top)
        }
    }
}

// Whether the inner side of a top is too great to be turned over by itself.
fn is_heavy(inner: &Tree, outer: &Tree) -> bool {
    inner.len().saturating_sub(outer.len()) > outer.len()
}

// The same tree, whose left side isn't heavy.
fn leaning_right(tree: Tree) -> Tree
    requires { length tree < 2 ^ 64 }
    ensures { result ≡ tree }
{
    match tree.open() {
        Root::Empty => Tree::new(),
        Root::Top(node) => {
            if is_heavy(&node.left, &node.right) {
                turned_right(node)
            } else {
                sealed(node)
            }
        }
    }
}

// The same tree, whose right side isn't heavy.
fn leaning_left(tree: Tree) -> Tree
    requires { length tree < 2 ^ 64 }
    ensures { result ≡ tree }
{
    match tree.open() {
        Root::Empty => Tree::new(),
        Root::Top(node) => {
            if is_heavy(&node.right, &node.left) {
                turned_left(node)
            } else {
                sealed(node)
            }
        }
    }
}

// The node as the top of a tree, where one side has got one more, or lost one. Of two sides the greater has, with one added to
// each count, at most three times as many numbers as the lesser.
fn balanced(mut node: Box<Node>) -> Tree
    requires { length node.value.left + 1 + length node.value.right < 2 ^ 64 }
    ensures { result ≡ node.value.left ++ node.value.number ∷ node.value.right }
{
    if node.right.len() / 3 > node.left.len() {
        let right = mem::replace(&mut node.right, Tree::new());
        node.right = leaning_right(right);
        return turned_left(node);
    }
    if node.left.len() / 3 > node.right.len() {
        let left = mem::replace(&mut node.left, Tree::new());
        node.left = leaning_left(left);
        return turned_right(node);
    }
    sealed(node)
}
