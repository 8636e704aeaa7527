//! What earlier definitions of a shard leave it.
ghost use Rattle.std.specs.Prelude.{◌≡◌, IfOk};

use gz_label::{Name, NoMemory};
use std::marker::Model;

/// How far a shard has read a journal.
#[derive(Debug, Drop)]
pub struct Mark {
    journal: Name,
    offset: u64,
}

impl Model for Mark {
    ghost use Rattle.gz_plain.specs.Shards.{Mark as Seen};

    ghost Value = { Seen };

    ghost view = { λ a. record { journal = a.journal; offset = a.offset } };
}

impl Mark {
    /// The offset to which a journal was read. It takes no memory.
    pub fn new(journal: Name, offset: u64) -> Mark
        ensures { result ≡ record { journal = journal; offset = offset } }
    {
        Mark { journal, offset }
    }

    /// The journal's name. It takes no memory.
    pub fn journal(&self) -> &Name
        ensures { result.now ≡ self.now.journal }
    {
        &self.journal
    }

    /// A copy.
    pub fn copy(&self) -> Result<Mark, NoMemory>
        ensures { IfOk result (λ mark. mark ≡ self.now) }
    {
        let journal = self.journal.copy()?;
        Ok(Mark {
            journal,
            offset: self.offset,
        })
    }

    /// The offset.
    pub fn offset(&self) -> u64
        ensures { result ≡ self.now.offset }
    {
        self.offset
    }
}

/// How many commits earlier definitions of a shard made, and how far each journal was read then.
#[derive(Debug, Drop)]
pub struct Past {
    commits: usize,
    marks: Vec<Mark>,
}

impl Model for Past {
    ghost use Rattle.gz_plain.specs.Shards.{Past as Seen};

    ghost Value = { Seen };

    ghost view = { λ a. record { commits = a.commits; marks = a.marks.items } };
}

impl Past {
    /// So many commits, and these marks. It takes no memory.
    pub fn new(commits: usize, marks: Vec<Mark>) -> Past
        ensures { result ≡ record { commits = commits; marks = marks.items } }
    {
        Past { commits, marks }
    }

    /// How many commits earlier definitions made.
    pub fn commits(&self) -> usize
        ensures { result ≡ self.now.commits }
    {
        self.commits
    }

    /// The marks. It takes no memory.
    pub fn marks(&self) -> &[Mark]
        ensures { result.now ≡ self.now.marks }
    {
        self.marks.as_slice()
    }
}
