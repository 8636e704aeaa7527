//! Specifications of journals, shards and members: what each is, which are valid, and how they are read from
//! JSON. Whether the journals that shards name are there is asked above.
//!
//! ```text
//! let part = read_part(alloc, b"{\"journals\":[{\"name\":\"a\"}]}")?;
//! let name = &part.journals.as_slice()[0].name;
//! ```
#![tactic(auto)]

mod app;
mod cluster;
mod framing;
mod journal;
mod labels;
mod member;
mod reserved;
mod shard;
mod source;

pub use cluster::{
    Journals, MAX_JOURNALS, MAX_MEMBERS, MAX_SHARDS, Members, Shards, Specs, read_journals,
    read_part, read_shards,
};
pub use framing::Framing;
pub use journal::{JournalSpec, read_journal};
pub use member::{MAX_LIMIT, MemberSpec, read_member, read_member_at};
pub use reserved::is_reserved;
pub use shard::{ShardSpec, read_shard};
pub use source::{SourceSpec, Sources};
