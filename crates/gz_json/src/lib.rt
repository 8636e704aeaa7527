//! JSON values of texts, over `serde_json`: reading, the fields of an object, and compact printing.
//!
//! ```text
//! let Some(value) = parse(alloc, bytes)? else { .. };          // None where the bytes aren't JSON
//! let text = print(alloc, &value)?;                            // compact, keys in ascending order
//! ```
#![tactic(auto)]

mod json;

pub use json::{first_unknown, parse, print};
