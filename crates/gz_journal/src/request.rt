//! Requests to append.
ghost use Rattle.std.specs.Prelude.{◌≡◌, IfOk};
ghost use Rattle.gz_journal.specs.JournalList.{plain};

use gz_label::{Attempt, Blob, LabelSet, NoMemory, Selector};
use std::alloc::Global;

/// A request to append the content, if the journal's end is the offset, where one is expected, and the
/// selector matches its registers. With the content the registers change: what `take` takes goes, then `add`
/// comes.
#[derive(Debug, Drop)]
pub struct Request {
    pub attempt: Attempt,
    pub offset: Option<u64>,
    pub selector: Selector,
    pub take: LabelSet,
    pub add: LabelSet,
    pub content: Blob,
}

impl Request {
    /// A request that expects no offset, whose selector takes any registers, and which leaves them as they are. It takes no
    /// memory.
    pub fn plain(alloc: Global, attempt: Attempt, content: Blob) -> Request
        ensures { result ≡ plain attempt content }
    {
        Request {
            attempt,
            offset: None,
            selector: Selector::new(alloc),
            take: LabelSet::new(alloc),
            add: LabelSet::new(alloc),
            content,
        }
    }

    /// An equal value.
    pub fn copy(&self) -> Result<Request, NoMemory>
        ensures { IfOk result (λ request. request ≡ self.now) }
    {
        Ok(Request {
            attempt: self.attempt.copy()?,
            offset: self.offset,
            selector: self.selector.copy()?,
            take: self.take.copy()?,
            add: self.add.copy()?,
            content: self.content.copy()?,
        })
    }
}
