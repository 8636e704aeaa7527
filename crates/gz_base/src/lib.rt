//! The outside: where bytes come from and go to, what fails there, and how a run ends.
//!
//! ```text
//! let mut source = StdSource::new(stdin.lock());
//! let mut lines = LineReader::new(alloc)?;
//! while let Some(line) = lines.next_line(alloc, &mut source, limit)? { .. }
//! write_all(&mut StdSink::new(stdout.lock()), text)?;          // Failed after a prefix of them
//! std::process::exit(Exit::Done.status());
//! ```
#![tactic(auto)]

mod exit;
mod lines;
mod memory;
mod outside;
mod standard;

pub use exit::Exit;
pub use lines::{LineError, LineReader};
pub use memory::{MemSink, MemSource};
pub use outside::{Failed, Sink, Source, write_all};
pub use standard::{StdSink, StdSource};
