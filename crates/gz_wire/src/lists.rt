//! Lists in messages, which contracts see as lists.
ghost use Rattle.std.specs.Prelude.{◌≡◌, [], ◌∷◌, ◌++◌, IfOk, OnOk, OnErr};

use crate::Send;
use gz_label::{Compare, Name, NoMemory};
use std::alloc::Global;
use std::marker::Model;

/// Names in an order.
#[derive(Debug, Drop)]
pub struct Names {
    items: Vec<Name>,
}

impl Model for Names {
    ghost use Rattle.std.specs.Prelude.{List, ℕ};

    ghost Value = { List (List ℕ) };

    ghost view = { λ a. a.items.items };
}

impl Names {
    /// No names. It takes no memory.
    pub fn new(alloc: Global) -> Names
        ensures { result ≡ [] }
    {
        Names {
            items: Vec::new(alloc),
        }
    }

    /// Makes names of the vector. It takes no memory.
    pub fn from_vec(items: Vec<Name>) -> Names
        ensures { result ≡ items.items }
    {
        Names { items }
    }

    /// Gives the names back as a vector. It takes no memory.
    pub fn into_vec(self) -> Vec<Name>
        ensures { result.items ≡ self }
    {
        self.items
    }

    /// The names. It takes no memory.
    pub fn as_slice(&self) -> &[Name]
        ensures { result.now ≡ self.now }
    {
        self.items.as_slice()
    }

    /// Copies of these.
    pub fn of(alloc: Global, slice: &[Name]) -> Result<Names, NoMemory>
        ensures { IfOk result (λ names. names ≡ slice.now) }
    {
        let mut items = Vec::new(alloc);
        for item in slice {
            items.push(item.copy()?)?;
        }
        Ok(Names { items })
    }

    /// An equal value.
    pub fn copy(&self) -> Result<Names, NoMemory>
        ensures { IfOk result (λ names. names ≡ self.now) }
    {
        let copied = Names::of(*self.items.allocator(), self.items.as_slice())?;
        Ok(copied)
    }
}

/// What a transaction expects.
#[derive(Debug, Drop)]
pub struct Compares {
    items: Vec<Compare>,
}

impl Model for Compares {
    ghost use Rattle.std.specs.Prelude.{List};
    ghost use Rattle.gz_label.specs.declared.keys.Compare.{Compare};

    ghost Value = { List Compare };

    ghost view = { λ a. a.items.items };
}

impl Compares {
    /// No compares. It takes no memory.
    pub fn new(alloc: Global) -> Compares
        ensures { result ≡ [] }
    {
        Compares {
            items: Vec::new(alloc),
        }
    }

    /// Makes compares of the vector. It takes no memory.
    pub fn from_vec(items: Vec<Compare>) -> Compares
        ensures { result ≡ items.items }
    {
        Compares { items }
    }

    /// Gives the compares back as a vector. It takes no memory.
    pub fn into_vec(self) -> Vec<Compare>
        ensures { result.items ≡ self }
    {
        self.items
    }

    /// The compares. It takes no memory.
    pub fn as_slice(&self) -> &[Compare]
        ensures { result.now ≡ self.now }
    {
        self.items.as_slice()
    }

    /// Copies of these.
    pub fn of(alloc: Global, slice: &[Compare]) -> Result<Compares, NoMemory>
        ensures { IfOk result (λ compares. compares ≡ slice.now) }
    {
        let mut items = Vec::new(alloc);
        for item in slice {
            items.push(item.copy()?)?;
        }
        Ok(Compares { items })
    }

    /// An equal value.
    pub fn copy(&self) -> Result<Compares, NoMemory>
        ensures { IfOk result (λ compares. compares ≡ self.now) }
    {
        let copied = Compares::of(*self.items.allocator(), self.items.as_slice())?;
        Ok(copied)
    }
}

/// What a step sends, in its order.
#[derive(Debug, Drop)]
pub struct Sends {
    items: Vec<Send>,
}

impl Model for Sends {
    ghost use Rattle.std.specs.Prelude.{List};
    ghost use Rattle.gz_wire.specs.declared.msg.Send.{Send};

    ghost Value = { List Send };

    ghost view = { λ a. a.items.items };
}

impl Sends {
    /// No sends. It takes no memory.
    pub fn new(alloc: Global) -> Sends
        ensures { result ≡ [] }
    {
        Sends {
            items: Vec::new(alloc),
        }
    }

    /// Makes sends of the vector. It takes no memory.
    pub fn from_vec(items: Vec<Send>) -> Sends
        ensures { result ≡ items.items }
    {
        Sends { items }
    }

    /// Gives the sends back as a vector. It takes no memory.
    pub fn into_vec(self) -> Vec<Send>
        ensures { result.items ≡ self }
    {
        self.items
    }

    /// The sends. It takes no memory.
    pub fn as_slice(&self) -> &[Send]
        ensures { result.now ≡ self.now }
    {
        self.items.as_slice()
    }

    /// One more send. After NoMemory nothing has changed.
    pub fn push(&mut self, send: Send) -> Result<(), NoMemory>
        ensures ok { OnOk result (self.new ≡ self.old ++ send ∷ []) }
        ensures err { OnErr result (self.new ≡ self.old) }
    {
        self.items.push(send)?;
        Ok(())
    }

    /// Copies of these.
    pub fn of(alloc: Global, slice: &[Send]) -> Result<Sends, NoMemory>
        ensures { IfOk result (λ sends. sends ≡ slice.now) }
    {
        let mut items = Vec::new(alloc);
        for item in slice {
            items.push(item.copy()?)?;
        }
        Ok(Sends { items })
    }

    /// An equal value.
    pub fn copy(&self) -> Result<Sends, NoMemory>
        ensures { IfOk result (λ sends. sends ≡ self.now) }
    {
        let copied = Sends::of(*self.items.allocator(), self.items.as_slice())?;
        Ok(copied)
    }
}
