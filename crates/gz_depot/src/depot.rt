//! The store and its step.
ghost use Rattle.std.specs.Prelude.{◌≡◌, [], IfOk, OnOk, unwrap_or};
ghost use Rattle.std.specs.Option.{option_copied};
ghost use Rattle.gz_fragment.specs.Names.{name_of as content_name};
ghost use Rattle.gz_fragment.specs.Fragments.{added, covering};
ghost use Rattle.gz_depot.specs.Depot.{index_of, names_of, kept, on_put, step};

use crate::answers::{got_of, name_in_span, names_of, one_send};
use gz_fragment::{Fragment, FragmentName, Index};
use gz_label::{Blob, Name, NoMemory};
use gz_wire::{Msg, Names, Sends};
use indexmap::IndexMap;
use std::alloc::Global;
use std::marker::Model;

/// The store: an index of fragments for each journal that has some. A contract sees the journals, each with the list
/// of its fragments, in the order of their first puts.
#[derive(Drop)]
pub struct Depot {
    alloc: Global,
    indexes: IndexMap<Name, Index>,
}

impl Model for Depot {
    ghost use Rattle.gz_depot.specs.Depot.{Indexes};

    ghost Value = { Indexes };

    ghost view = { λ a. a.indexes.entries };
}

impl Depot {
    /// No fragment. It takes no memory.
    pub fn new(alloc: Global) -> Depot
        ensures { result ≡ [] }
    {
        Depot {
            alloc,
            indexes: IndexMap::new(alloc),
        }
    }

    /// The fragments of a journal; None where it never had one. It takes no memory.
    #[tactic(auto, using(crate::proofs::IndexLemmas::index_found))]
    pub fn index(&self, journal: &Name) -> Option<&Index>
        ensures { index_of journal.now self.now ≡ unwrap_or (option_copied result) [] }
    {
        self.indexes.get(journal)
    }

    // The fragment of a journal that covers an offset.
    fn covering(&self, journal: &Name, offset: u64) -> Option<&Fragment>
        ensures { option_copied result ≡ covering offset (index_of journal.now self.now) }
    {
        match self.index(journal) {
            None => None,
            Some(index) => index.covering(offset),
        }
    }

    // The names of a journal's fragments.
    fn names(&self, journal: &Name) -> Result<Names, NoMemory>
        ensures { IfOk result (λ names. names ≡ names_of (index_of journal.now self.now)) }
    {
        match self.index(journal) {
            None => Ok(Names::new(self.alloc)),
            Some(index) => {
                let names = names_of(self.alloc, index)?;
                Ok(names)
            }
        }
    }

    // Keeps a content in its journal's index.
    fn keep(&mut self, journal: Name, name: FragmentName, content: Blob) -> Result<(), NoMemory>
        requires { name ≡ content_name name.begin content }
        ensures { OnOk result (self.new ≡ kept journal name.begin content self.old) }
    {
        let key = journal.copy()?;
        let found = self.indexes.insert(key, Index::new(self.alloc))?;
        let index = with_content(self.alloc, found, name, content)?;
        let _ = self.indexes.insert(journal, index)?;
        Ok(())
    }

    // A put from a node.
    fn put(
        &mut self,
        from: &Name,
        req: u64,
        journal: Name,
        begin: u64,
        end: u64,
        content: Blob,
    ) -> Result<Sends, NoMemory>
        ensures indexes { OnOk result
            (self.new ≡ (on_put from.now req journal begin end content self.old).indexes) }
        ensures sends { IfOk result
            (λ sends. sends ≡ (on_put from.now req journal begin end content self.old).sends) }
    {
        match name_in_span(begin, end, content.as_slice()) {
            None => Ok(Sends::new(self.alloc)),
            Some(name) => {
                let done = Msg::StoreDone {
                    req,
                    journal: journal.copy()?,
                    begin,
                    end,
                };
                let sends = one_send(self.alloc, from, done)?;
                self.keep(journal, name, content)?;
                Ok(sends)
            }
        }
    }

    /// What the store makes of a message from this sender. A put, which a client may not make, is kept and answered
    /// by StoreDone, where the content is that of its span; a get is answered by the bytes of the covering fragment
    /// from the offset on, at most 262,144, and by status 1 where there is none; a list by the names of all fragments.
    /// Any other message changes nothing and is not answered. After NoMemory the store isn't used again.
    pub fn step(&mut self, from: &Name, client: bool, msg: Msg) -> Result<Sends, NoMemory>
        ensures indexes { OnOk result (self.new ≡ (step self.old from.now client msg).indexes) }
        ensures sends { IfOk result (λ sends. sends ≡ (step self.old from.now client msg).sends) }
    {
        match msg {
            Msg::StorePut {
                req,
                journal,
                begin,
                end,
                content,
            } => {
                if client {
                    return Ok(Sends::new(self.alloc));
                }
                let sends = self.put(from, req, journal, begin, end, content)?;
                Ok(sends)
            }
            Msg::StoreGet {
                req,
                journal,
                offset,
            } => {
                let found = self.covering(&journal, offset);
                let answer = got_of(self.alloc, req, journal, offset, found)?;
                let sends = one_send(self.alloc, from, answer)?;
                Ok(sends)
            }
            Msg::StoreList { req, journal } => {
                let names = self.names(&journal)?;
                let answer = Msg::StoreNames {
                    req,
                    journal,
                    names,
                };
                let sends = one_send(self.alloc, from, answer)?;
                Ok(sends)
            }
            _ => Ok(Sends::new(self.alloc)),
        }
    }
}

// The index that was found, or an empty one, with one more content.
fn with_content(
    alloc: Global,
    found: Option<Index>,
    name: FragmentName,
    content: Blob,
) -> Result<Index, NoMemory>
    requires { name ≡ content_name name.begin content }
    ensures { IfOk result
        (λ index. index ≡ added (record { name = name; content = content }) (unwrap_or found [])) }
{
    let mut index = match found {
        None => Index::new(alloc),
        Some(index) => index,
    };
    match index.add(name, content) {
        Ok(()) => Ok(index),
        // The content is the name's, so memory ran out.
        Err(_) => Err(NoMemory),
    }
}
