//! Ascending numbers by their places.
ghost use Rattle.std.specs.Prelude.{◌≡◌, ◌+◌, ◌<◌, ◌^◌, ◌++◌, [], ◌∷◌, length, slice_get, IfOk};
ghost use Rattle.gz_ranks.specs.Numbers.{AreAscending, AreBelow, without};

use crate::tree::{Node, Tree, removed, with_last};
use gz_label::NoMemory;
use std::alloc::Global;
use std::marker::Model;
use std::mem;

/// A number with the memory that it takes among others. A contract sees the number.
#[derive(Debug, Drop)]
pub struct Slot {
    node: Box<Node>,
}

impl Model for Slot {
    ghost use Rattle.std.specs.Prelude.{ℕ};

    ghost Value = { ℕ };

    ghost use Rattle.gz_ranks.specs.Trees.{slot_number, IsAlone};

    ghost view = { slot_number };

    ghost invariant = { λ a. IsAlone a.node.value };
}

impl Slot {
    /// The number with its memory.
    pub fn new(alloc: Global, number: u64) -> Result<Slot, NoMemory>
        ensures { IfOk result (λ slot. slot ≡ number) }
    {
        let node = Node::alone(alloc, number)?;
        Ok(Slot { node })
    }
}

/// Numbers in ascending order, none of them twice. A contract sees the list.
#[derive(Debug, Drop)]
pub struct Ranks {
    tree: Tree,
}

impl Model for Ranks {
    ghost use Rattle.std.specs.Prelude.{List, ℕ};
    ghost use Rattle.gz_ranks.specs.Numbers.{AreAscending};

    ghost Value = { List ℕ };

    ghost view = { λ a. a.tree };

    ghost invariant = { λ a. AreAscending a.tree };
}

impl Ranks {
    /// No number. It takes no memory.
    pub fn new() -> Ranks
        ensures { result ≡ [] }
    {
        Ranks { tree: Tree::new() }
    }

    /// How many numbers there are. It takes no memory.
    pub fn len(&self) -> usize
        ensures value { result ≡ length self.now }
        ensures ascending { AreAscending self.now }
    {
        self.tree.len()
    }

    /// The number at this place, counted from 0; None exactly past the end. It takes no memory.
    pub fn nth(&self, place: usize) -> Option<u64>
        ensures { result ≡ slice_get self.now place }
    {
        self.tree.nth(place)
    }

    /// One more at the end, above all others. It takes no memory.
    pub fn push(&mut self, slot: Slot)
        requires above { AreBelow slot self.old }
        requires room { length self.old + 1 < 2 ^ 64 }
        ensures { self.new ≡ self.old ++ slot ∷ [] }
    {
        let tree = mem::replace(&mut self.tree, Tree::new());
        self.tree = with_last(tree, slot.node);
    }

    /// All but this number, whether it is there or not. It takes no memory.
    pub fn remove(&mut self, number: u64)
        ensures { self.new ≡ without number self.old }
    {
        if self.tree.len() == 0 {
            return;
        }
        let tree = mem::replace(&mut self.tree, Tree::new());
        self.tree = removed(tree, number);
    }
}
