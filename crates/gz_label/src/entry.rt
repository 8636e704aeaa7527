//! What a journal is kept as.
ghost use Rattle.std.specs.Prelude.{◌≡◌, [], IfOk};

use crate::{Blob, LabelSet, Name, NoMemory};
use std::alloc::Global;
use std::marker::Model;

/// A request to append: who asked, and the number that the asker gave it.
#[derive(Debug, Drop)]
pub struct Attempt {
    pub node: Name,
    pub req: u64,
}

/// What one append put into a journal, and the registers after it.
#[derive(Debug, Drop)]
pub struct Entry {
    pub attempt: Attempt,
    pub bytes: Blob,
    pub registers: LabelSet,
}

/// Entries, which a contract sees as their list.
#[derive(Debug, Drop)]
pub struct Entries {
    entries: Vec<Entry>,
}

impl Model for Entries {
    ghost use Rattle.std.specs.Prelude.{List};
    ghost use Rattle.gz_label.specs.declared.entry.Entry.{Entry};

    ghost Value = { List Entry };

    ghost view = { λ a. a.entries.items };
}

/// The end of a journal: its entries from the offset `begin` on, the registers before them, and the
/// offset `head` up to which they are known to be kept.
#[derive(Debug, Drop)]
pub struct Image {
    pub begin: u64,
    pub base: LabelSet,
    pub entries: Entries,
    pub head: u64,
}

fn copy_entries(alloc: Global, entries: &[Entry]) -> Result<Vec<Entry>, NoMemory>
    ensures { IfOk result (λ copied. copied.items ≡ entries.now) }
{
    let mut copied = Vec::new(alloc);
    for entry in entries {
        let one = entry.copy()?;
        copied.push(one)?;
    }
    Ok(copied)
}

impl Attempt {
    /// An equal value.
    pub fn copy(&self) -> Result<Attempt, NoMemory>
        ensures { IfOk result (λ attempt. attempt ≡ self.now) }
    {
        Ok(Attempt {
            node: self.node.copy()?,
            req: self.req,
        })
    }
}

impl Entry {
    /// An equal value.
    pub fn copy(&self) -> Result<Entry, NoMemory>
        ensures { IfOk result (λ entry. entry ≡ self.now) }
    {
        Ok(Entry {
            attempt: self.attempt.copy()?,
            bytes: self.bytes.copy()?,
            registers: self.registers.copy()?,
        })
    }
}

impl Entries {
    /// No entries. It takes no memory.
    pub fn new(alloc: Global) -> Entries
        ensures { result ≡ [] }
    {
        Entries {
            entries: Vec::new(alloc),
        }
    }

    /// The same entries. It takes no memory.
    pub fn of(entries: Vec<Entry>) -> Entries
        ensures { result ≡ entries.items }
    {
        Entries { entries }
    }

    /// Gives the entries back as a vector. It takes no memory.
    pub fn into_vec(self) -> Vec<Entry>
        ensures { result.items ≡ self }
    {
        self.entries
    }

    /// The entries. It takes no memory.
    pub fn as_slice(&self) -> &[Entry]
        ensures { result.now ≡ self.now }
    {
        self.entries.as_slice()
    }

    /// An equal value.
    pub fn copy(&self) -> Result<Entries, NoMemory>
        ensures { IfOk result (λ entries. entries ≡ self.now) }
    {
        let entries = copy_entries(*self.entries.allocator(), self.entries.as_slice())?;
        Ok(Entries { entries })
    }
}

impl Image {
    /// An equal value.
    pub fn copy(&self) -> Result<Image, NoMemory>
        ensures { IfOk result (λ image. image ≡ self.now) }
    {
        Ok(Image {
            begin: self.begin,
            base: self.base.copy()?,
            entries: self.entries.copy()?,
            head: self.head,
        })
    }
}
