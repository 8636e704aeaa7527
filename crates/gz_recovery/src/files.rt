//! Files that operations make.
ghost use Rattle.std.specs.Prelude.{◌≡◌, ◌+◌, [], IfOk, OnOk, OnErr, option_map, Some, None, IfSome, length, ◌≤◌, slice_get};
ghost use Rattle.std.specs.Ordering.{nat_cmp};
ghost use Rattle.std.specs.Cmp.Lexicographic.{slice_cmp};
ghost use Rattle.std.specs.Map.{set_value};
ghost use Rattle.gz_recovery.specs.Files.{no_files, named, live, is_node, linked, unlinked, create, link_to, unlink, write_to, with_property, does, nth_file, file_at, text_of, with_links, appended, AreBelow, Becomes};
ghost use Rattle.gz_recovery.specs.Operations.{max_seq};

use crate::{FsmError, OpKind, Text};
use gz_label::{Blob, Name, NoMemory};
use std::alloc::Global;
use std::collections::BTreeMap;
use std::marker::Model;

/// A file's node: its text, and how many paths name it.
#[derive(Debug, Drop)]
pub struct Node {
    pub text: Blob,
    pub links: u64,
}

/// The live nodes by their numbers, the node of each path, and the text of each property.
#[derive(Drop)]
pub struct Files {
    alloc: Global,
    nodes: BTreeMap<u64, Node>,
    paths: BTreeMap<Name, u64>,
    properties: BTreeMap<Name, Text>,
}

impl Model for Files {
    ghost use Rattle.gz_recovery.specs.Files.{Files as Seen};

    ghost Value = { Seen };

    ghost view = { λ a. record { nodes = a.nodes.entries; paths = a.paths.entries; properties = a.properties.entries } };
}

impl Files {
    /// No files. It takes no memory.
    pub fn new(alloc: Global) -> Files
        ensures { result ≡ no_files }
    {
        Files {
            alloc,
            nodes: BTreeMap::new(alloc),
            paths: BTreeMap::new(alloc),
            properties: BTreeMap::new(alloc),
        }
    }

    /// The text of the file at the path. It takes no memory.
    pub fn text_at(&self, path: &Name) -> Option<&Blob>
        ensures { option_map (λ text. text.now) result ≡ file_at path.now self.now }
    {
        let fnode = self.paths.get(path)?;
        self.text(*fnode)
    }

    /// How many paths name the node; None where it isn't live.
    fn links(&self, fnode: u64) -> Option<u64>
        ensures { result ≡ option_map (λ node. node.links) (live fnode self.now.nodes) }
    {
        let node = self.nodes.get(&fnode)?;
        Some(node.links)
    }

    /// Sets how many paths name the node, if it is live.
    fn set_links(&mut self, fnode: u64, links: u64)
        ensures { self.new ≡ record self.old { nodes = with_links fnode links self.old.nodes } }
    {
        if let Some(node) = self.nodes.get_mut(&fnode) {
            node.links = links;
        }
    }

    /// One path less names the node, which goes at the last.
    fn unlink_node(&mut self, fnode: u64)
        ensures { self.new ≡ record self.old { nodes = unlinked (Some fnode) self.old.nodes } }
    {
        let Some(links) = self.links(fnode) else {
            return;
        };
        if links <= 1 {
            self.nodes.remove(&fnode);
        } else {
            self.set_links(fnode, links - 1);
        }
    }

    /// A new empty file at the path, of this node. BadOp exactly where a file is there.
    fn create(&mut self, seq: u64, path: &Name) -> Result<(), FsmError>
        ensures { Becomes result self.old self.new (create seq path.now self.old) }
    {
        if self.paths.contains_key(path) {
            return Err(FsmError::BadOp);
        }
        let text = Blob::new(self.alloc);
        self.paths.insert(path.copy()?, seq)?;
        if let Err(_e) = self.nodes.insert(seq, Node { text, links: 1 }) {
            self.paths.remove(path);
            return Err(FsmError::NoMemory);
        }
        Ok(())
    }

    /// The path names the node, in place of the one that it named. BadOp exactly where the node isn't live.
    fn link(&mut self, fnode: u64, path: &Name) -> Result<(), FsmError>
        requires { IfSome (live fnode self.old.nodes) (λ node. node.links ≤ max_seq) }
        ensures { Becomes result self.old self.new
            (link_to fnode path.now self.old (live fnode self.old.nodes)) }
    {
        let Some(links) = self.links(fnode) else {
            return Err(FsmError::BadOp);
        };
        let before = self.paths.insert(path.copy()?, fnode)?;
        self.set_links(fnode, links + 1);
        if let Some(before) = before {
            self.unlink_node(before);
        }
        Ok(())
    }

    /// The path goes. BadOp exactly where it isn't there.
    fn unlink(&mut self, path: &Name) -> Result<(), FsmError>
        ensures { Becomes result self.old self.new (unlink path.now self.old) }
    {
        let Some(fnode) = self.paths.remove(path) else {
            return Err(FsmError::BadOp);
        };
        self.unlink_node(fnode);
        Ok(())
    }

    /// How many bytes the node's text has; None where the node isn't live.
    fn len(&self, fnode: u64) -> Option<usize>
        ensures { result ≡ option_map (λ node. length node.text) (live fnode self.now.nodes) }
    {
        let node = self.nodes.get(&fnode)?;
        Some(node.text.len())
    }

    /// Puts the text at the end of the node's, if it is live. After NoMemory nothing has changed.
    fn append(&mut self, fnode: u64, text: &Text) -> Result<(), NoMemory>
        ensures ok { OnOk result
            (self.new ≡ record self.old { nodes = appended fnode text.now self.old.nodes }) }
        ensures err { OnErr result (self.new ≡ self.old) }
    {
        if let Some(node) = self.nodes.get_mut(&fnode) {
            node.text.append(text.as_str().as_bytes())?;
        }
        Ok(())
    }

    /// Puts the text at the end of the node's. BadOp exactly where the node isn't live or doesn't end at the offset.
    fn write(&mut self, fnode: u64, offset: u64, text: &Text) -> Result<(), FsmError>
        ensures { Becomes result self.old self.new
            (write_to fnode offset text.now self.old (live fnode self.old.nodes)) }
    {
        let Some(len) = self.len(fnode) else {
            return Err(FsmError::BadOp);
        };
        if offset != len as u64 {
            return Err(FsmError::BadOp);
        }
        self.append(fnode, text)?;
        Ok(())
    }

    /// The property of this path has this text.
    fn set_property(&mut self, path: &Name, text: &Text) -> Result<(), FsmError>
        ensures { Becomes result self.old self.new
            (Some (with_property path.now text.now self.old)) }
    {
        let path = path.copy()?;
        let text = text.copy()?;
        self.properties.insert(path, text)?;
        Ok(())
    }

    /// Does what an operation of this number and kind does. BadOp exactly where its own condition fails; then, and
    /// after NoMemory, nothing has changed.
    #[tactic(auto, using(crate::proofs::Below::links_below))]
    pub fn take(&mut self, seq: u64, kind: &OpKind) -> Result<(), FsmError>
        requires below { AreBelow seq self.old.nodes }
        requires small { seq ≤ max_seq }
        ensures { Becomes result self.old self.new (does seq kind.now self.old) }
    {
        match kind {
            OpKind::Create { path } => self.create(seq, path),
            OpKind::Link { fnode, path } => self.link(*fnode, path),
            OpKind::Unlink { path } => self.unlink(path),
            OpKind::Write {
                fnode,
                offset,
                text,
            } => self.write(*fnode, *offset, text),
            OpKind::Property { path, text } => self.set_property(path, text),
            OpKind::Handoff => Ok(()),
        }
    }

    /// The text of the node, if it is live.
    fn text(&self, fnode: u64) -> Option<&Blob>
        ensures { option_map (λ text. text.now) result ≡ text_of fnode self.now.nodes }
    {
        let node = self.nodes.get(&fnode)?;
        Some(&node.text)
    }

    /// The path at this place, from 0, in path order, and its node.
    fn nth_path(&self, place: usize) -> Option<(&Name, u64)>
        ensures { option_map
            (λ entry. (entry.0.now, entry.1)) result ≡ slice_get self.now.paths place }
    {
        let mut left = place;
        for (path, fnode) in self.paths.iter() {
            if left == 0 {
                return Some((path, *fnode));
            }
            left -= 1;
        }
        None
    }

    /// Path and text of the file at this place, from 0, in path order.
    pub fn nth(&self, place: usize) -> Option<(&Name, &Blob)>
        ensures { option_map (λ file. (file.0.now, file.1.now)) result ≡ nth_file place self.now }
    {
        let (path, fnode) = self.nth_path(place)?;
        let text = self.text(fnode)?;
        Some((path, text))
    }
}
