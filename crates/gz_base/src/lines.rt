//! The lines of a source.
ghost use Rattle.std.specs.Prelude.{◌≡◌, ◌≢◌, ◌≤◌, ◌<◌, ◌+◌, max, ◌++◌, [], length, take, drop, IfOk, OnOk, OnErr, Err, IfNone as OnNone, IfSome};
ghost use Rattle.std.specs.Io.KnownBytes.{IsAtEnd, Keeps};
ghost use Rattle.gz_model.specs.Faults.{HasRisen};
ghost use Rattle.gz_model.specs.Lines.{line_len, IsSearched};
ghost use Rattle.gz_model.specs.Told.{ahead, TakesLine, HasLongLine, ReadsMore};

use crate::{Failed, Source};
use gz_label::{Blob, NoMemory};
use std::alloc::Global;
use std::error::Error;
use std::fmt;
use std::marker::Model;

/// How many bytes are read at once.
const BLOCK: usize = 65_536;

/// The byte that ends a line.
const NEWLINE: u8 = b'\n';

/// Why there is no next line.
#[derive(Clone, Copy, Debug, PartialEq, Eq)]
pub enum LineError {
    /// The source failed.
    Fault,
    /// The line has more bytes than the limit.
    TooLong,
    /// Memory ran out.
    NoMemory,
}

impl fmt::Display for LineError {
    fn fmt<W: fmt::Write>(&self, f: &mut fmt::Formatter<W>) -> fmt::Result {
        match self {
            LineError::Fault => write!(f, "the source failed"),
            LineError::TooLong => write!(f, "the line is too long"),
            LineError::NoMemory => write!(f, "out of memory"),
        }
    }
}

impl Error for LineError {}

impl From<NoMemory> for LineError {
    ghost use Rattle.std.specs.Prelude.{◌≡◌};
    ghost use Rattle.gz_base.specs.declared.lines.LineError.TheVariants.{NoMemory};

    ghost from_gives = { λ _ e. e ≡ NoMemory };

    fn from(_e: NoMemory) -> LineError {
        LineError::NoMemory
    }
}

impl From<Failed> for LineError {
    ghost use Rattle.std.specs.Prelude.{◌≡◌};
    ghost use Rattle.gz_base.specs.declared.lines.LineError.TheVariants.{Fault};

    ghost from_gives = { λ _ e. e ≡ Fault };

    fn from(_e: Failed) -> LineError {
        LineError::Fault
    }
}

/// How many bytes the first line has, with its newline, where its newline is among the bytes. The first
/// `searched` ones have none.
#[tactic(auto, using(crate::proofs::LineLemmas::line_len_within))]
fn first_line_len(bytes: &[u8], searched: usize) -> Option<usize>
    requires within { searched ≤ length bytes.now }
    requires none { IsSearched searched bytes.now }
    ensures value { result ≡ line_len bytes.now }
    ensures within { IfSome result (λ n. n ≤ length bytes.now) }
    ensures behind { IfSome result (λ n. searched < n) }
{
    for i in searched..bytes.len() {
        if bytes[i] == NEWLINE {
            return Some(i + 1);
        }
    }
    None
}

/// Bytes that were read and not yet taken.
#[derive(Drop)]
struct Unread {
    bytes: Blob,
    start: usize,
}

impl Model for Unread {
    ghost use Rattle.std.specs.Prelude.{List, ℕ, drop, length, ◌≤◌};

    ghost Value = { List ℕ };

    ghost view = { λ a. drop a.start a.bytes };

    ghost invariant = { λ a. a.start ≤ length a.bytes };
}

impl Unread {
    fn as_slice(&self) -> &[u8]
        ensures { result.now ≡ self.now }
    {
        &self.bytes.as_slice()[self.start..]
    }

    /// Puts the bytes at the end, and lets go of those that were taken. So the bytes of one line are
    /// moved to the start at most once.
    fn append(&mut self, alloc: Global, bytes: &[u8]) -> Result<(), NoMemory>
        ensures ok { OnOk result (self.new ≡ self.old ++ bytes.now) }
        ensures err { OnErr result (self.new ≡ self.old) }
    {
        if self.start == 0 {
            self.bytes.append(bytes)?;
            return Ok(());
        }
        let mut all = Blob::of(alloc, self.as_slice())?;
        all.append(bytes)?;
        self.bytes = all;
        self.start = 0;
        Ok(())
    }

    fn take_prefix(&mut self, alloc: Global, n: usize) -> Result<Blob, NoMemory>
        requires { n ≤ length self.old }
        ensures ok { IfOk result
            (λ prefix. (prefix ≡ take n self.old) × (self.new ≡ drop n self.old)) }
        ensures err { OnErr result (self.new ≡ self.old) }
    {
        let bytes = self.bytes.as_slice();
        let end = self.start + n;
        let prefix = Blob::of(alloc, &bytes[self.start..end])?;
        self.start = end;
        Ok(prefix)
    }
}

/// Takes lines from a source, which it reads in blocks. Contracts see the bytes that were read and not
/// yet taken. After an error it isn't used again.
#[derive(Drop)]
pub struct LineReader {
    unread: Unread,
    block: Vec<u8>,
}

impl Model for LineReader {
    ghost use Rattle.std.specs.Prelude.{List, ℕ, length, ◌≡◌};

    ghost Value = { List ℕ };

    ghost view = { λ a. a.unread };

    ghost invariant = { λ a. length a.block.items ≡ 65536 };
}

impl LineReader {
    /// A reader that has read nothing. It takes the memory of one block, 65,536 bytes.
    pub fn new(alloc: Global) -> Result<LineReader, NoMemory>
        ensures { IfOk result (λ reader. reader ≡ []) }
    {
        Ok(LineReader {
            unread: Unread {
                bytes: Blob::new(alloc),
                start: 0,
            },
            block: vec![in alloc; 0; BLOCK]?,
        })
    }

    fn unread(&self) -> &[u8]
        ensures { result.now ≡ self.now }
    {
        self.unread.as_slice()
    }

    /// Puts a block of the source at the end, and answers how many bytes it has: 0 only at the end of
    /// the input.
    fn read_block<S: Source>(&mut self, alloc: Global, input: &mut S) -> Result<usize, LineError>
        ensures more { IfOk result
            (λ n. ReadsMore n self.old self.new (S.left input.old) (S.left input.new)) }
        ensures end { IfOk result (λ n. n ≡ 0 → IsAtEnd (S.left input.new)) }
        ensures one_block { IfOk result (λ n. n ≤ 65536) }
        ensures kept { OnErr result (self.new ≡ self.old) }
        ensures faults_stay { S.faults input.old ≤ S.faults input.new }
        ensures fault { result ≡ Err LineError.Fault →
            HasRisen (S.faults input.old) (S.faults input.new) }
        ensures never_long { result ≢ Err LineError.TooLong }
    {
        let n = input.read(self.block.as_mut_slice())?;
        self.unread.append(alloc, &self.block[..n])?;
        Ok(n)
    }

    fn take_prefix(&mut self, alloc: Global, n: usize) -> Result<Blob, NoMemory>
        requires { n ≤ length self.old }
        ensures ok { IfOk result
            (λ prefix. (prefix ≡ take n self.old) × (self.new ≡ drop n self.old)) }
        ensures err { OnErr result (self.new ≡ self.old) }
    {
        self.unread.take_prefix(alloc, n)
    }

    /// The next line, with its newline; the last one may lack it. None comes at the end of the input.
    /// TooLong comes only where the next line has more than `limit` bytes, of which no more is kept than the limit and
    /// a block; behind a line that is taken no more was read than the block that holds its end. Time goes with the
    /// bytes of the line and of the blocks that are read.
    pub fn next_line<S: Source>(
        &mut self,
        alloc: Global,
        input: &mut S,
        limit: usize,
    ) -> Result<Option<Blob>, LineError>
        ensures end { IfOk result
            (λ r. OnNone r
            (IsAtEnd (ahead self.old (S.left input.old)) × IsAtEnd (S.left input.new))) }
        ensures line { IfOk result
            (λ r. IfSome r
            (TakesLine (ahead self.old (S.left input.old)) (ahead self.new (S.left input.new)))) }
        ensures too_long { result ≡ Err LineError.TooLong →
            HasLongLine limit (ahead self.old (S.left input.old))
            × Keeps (ahead self.old (S.left input.old)) (ahead self.new (S.left input.new)) }
        ensures bounded { length self.new ≤ max (length self.old) (limit + 65536) }
        ensures one_block { OnOk result (length self.new ≤ max (length self.old) 65536) }
        ensures faults_stay { S.faults input.old ≤ S.faults input.new }
        ensures fault { result ≡ Err LineError.Fault →
            HasRisen (S.faults input.old) (S.faults input.new) }
    {
        let mut searched = 0;
        'reads: loop {
            let bytes = self.unread();
            let have = bytes.len();
            match first_line_len(bytes, searched) {
                Some(n) => return Ok(Some(self.take_prefix(alloc, n)?)),
                None => searched = have,
            }
            if have > limit {
                return Err(LineError::TooLong);
            }
            let n = self.read_block(alloc, input)?;
            if n == 0 {
                if have == 0 {
                    return Ok(None);
                }
                return Ok(Some(self.take_prefix(alloc, have)?));
            }
        }
    }
}
