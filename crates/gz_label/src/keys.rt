//! What is written to a space of keys.
ghost use Rattle.std.specs.Prelude.{◌≡◌, IfOk};

use crate::{Blob, Name, NoMemory};
use std::alloc::Global;
use std::marker::Model;

/// One write of a transaction: the key's new value, or none where the key is deleted.
#[derive(Debug, Drop)]
pub struct KeyWrite {
    pub key: Name,
    pub value: Option<Blob>,
}

impl KeyWrite {
    /// An equal value.
    pub fn copy(&self) -> Result<KeyWrite, NoMemory>
        ensures { IfOk result (λ write. write ≡ self.now) }
    {
        let value = match &self.value {
            None => None,
            Some(value) => Some(value.copy()?),
        };
        Ok(KeyWrite {
            key: self.key.copy()?,
            value,
        })
    }
}

/// What a transaction expects of a key: the revision of the change that wrote it last, or 0 where it is to be
/// absent.
#[derive(Debug, Drop)]
pub struct Compare {
    pub key: Name,
    pub mod_revision: u64,
}

impl Compare {
    /// An equal value.
    pub fn copy(&self) -> Result<Compare, NoMemory>
        ensures { IfOk result (λ compare. compare ≡ self.now) }
    {
        Ok(Compare {
            key: self.key.copy()?,
            mod_revision: self.mod_revision,
        })
    }
}

/// The writes of a transaction in their order, which a contract sees as their list.
#[derive(Debug, Drop)]
pub struct Writes {
    items: Vec<KeyWrite>,
}

impl Model for Writes {
    ghost use Rattle.std.specs.Prelude.{List};
    ghost use Rattle.gz_label.specs.declared.keys.KeyWrite.{KeyWrite};

    ghost Value = { List KeyWrite };

    ghost view = { λ a. a.items.items };
}

impl Writes {
    /// Makes writes of the vector. It takes no memory.
    pub fn from_vec(items: Vec<KeyWrite>) -> Writes
        ensures { result ≡ items.items }
    {
        Writes { items }
    }

    /// Gives the writes back as a vector. It takes no memory.
    pub fn into_vec(self) -> Vec<KeyWrite>
        ensures { result.items ≡ self }
    {
        self.items
    }

    /// The writes. It takes no memory.
    pub fn as_slice(&self) -> &[KeyWrite]
        ensures { result.now ≡ self.now }
    {
        self.items.as_slice()
    }

    /// Copies of these.
    pub fn of(alloc: Global, slice: &[KeyWrite]) -> Result<Writes, NoMemory>
        ensures { IfOk result (λ writes. writes ≡ slice.now) }
    {
        let mut items = Vec::new(alloc);
        for item in slice {
            items.push(item.copy()?)?;
        }
        Ok(Writes { items })
    }

    /// An equal value.
    pub fn copy(&self) -> Result<Writes, NoMemory>
        ensures { IfOk result (λ writes. writes ≡ self.now) }
    {
        let copied = Writes::of(*self.items.allocator(), self.items.as_slice())?;
        Ok(copied)
    }
}

/// A transaction that was made: its writes, and the revision that it got. Revisions count from 1.
#[derive(Debug, Drop)]
pub struct Change {
    pub revision: u64,
    pub writes: Writes,
}

impl Change {
    /// An equal value.
    pub fn copy(&self) -> Result<Change, NoMemory>
        ensures { IfOk result (λ change. change ≡ self.now) }
    {
        Ok(Change {
            revision: self.revision,
            writes: self.writes.copy()?,
        })
    }
}

/// Changes in their order, which a contract sees as their list.
#[derive(Debug, Drop)]
pub struct Changes {
    items: Vec<Change>,
}

impl Model for Changes {
    ghost use Rattle.std.specs.Prelude.{List};
    ghost use Rattle.gz_label.specs.declared.keys.Change.{Change};

    ghost Value = { List Change };

    ghost view = { λ a. a.items.items };
}

impl Changes {
    /// Makes changes of the vector. It takes no memory.
    pub fn from_vec(items: Vec<Change>) -> Changes
        ensures { result ≡ items.items }
    {
        Changes { items }
    }

    /// Gives the changes back as a vector. It takes no memory.
    pub fn into_vec(self) -> Vec<Change>
        ensures { result.items ≡ self }
    {
        self.items
    }

    /// The changes. It takes no memory.
    pub fn as_slice(&self) -> &[Change]
        ensures { result.now ≡ self.now }
    {
        self.items.as_slice()
    }

    /// Copies of these.
    pub fn of(alloc: Global, slice: &[Change]) -> Result<Changes, NoMemory>
        ensures { IfOk result (λ changes. changes ≡ slice.now) }
    {
        let mut items = Vec::new(alloc);
        for item in slice {
            items.push(item.copy()?)?;
        }
        Ok(Changes { items })
    }

    /// An equal value.
    pub fn copy(&self) -> Result<Changes, NoMemory>
        ensures { IfOk result (λ changes. changes ≡ self.now) }
    {
        let copied = Changes::of(*self.items.allocator(), self.items.as_slice())?;
        Ok(copied)
    }
}
