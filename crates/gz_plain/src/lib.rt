//! Journals as texts, and shards that read and write them; and that the shards keep the promise.
//!
//! ```text
//! let mut cluster = Cluster::new(alloc);
//! cluster.change(alloc, journals, definitions)?;              // journals and shards that are new, or other definitions
//! cluster.append(name, attempt, bytes)?;                      // one entry
//! cluster.settle(alloc)?;                                     // until every shard is quiescent
//! let reports = cluster.reports(alloc)?;
//! ```
#![tactic(auto)]

mod begin;
mod change;
mod cluster;
mod feed;
mod journals;
mod laws;
mod past;
mod reader;
mod redefine;
mod remark;
mod report;
mod settle;
mod shard;
mod writer;

pub use cluster::{Cluster, Definition, Source};
pub use journals::{Journal, Journals};
pub use laws::{
    a_change_loses_no_shard, a_settle_ends, every_shard_is_exactly_once, what_is_told_is_so,
};
pub use report::{ShardReport, count_committed};
