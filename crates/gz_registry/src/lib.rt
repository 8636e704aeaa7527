//! What a cluster puts into its key space, and everyone who ever joined it. What a member knows of the key space is
//! the member's own, and lags.
//!
//! ```text
//! let mut registry = Registry::start(alloc, &specs)?;
//! let lease = registry.join(&joined)?;
//! ```
#![tactic(auto)]

mod error;
mod registry;
mod space;
mod start;
mod writes;

pub use error::RegistryError;
pub use registry::Registry;
