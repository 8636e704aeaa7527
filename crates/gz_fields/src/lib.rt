//! JSON objects, read field by field. Each reader takes the path of the object that it reads, as
//! `shards[0].sources[1]`, and a refusal tells the path of the first offender. A caller refuses unknown
//! fields first, and then reads each of its fields in their order:
//!
//! ```text
//! refuse_unknown(alloc, path, value, &["id", "limit"])?;
//! let id = read_id(alloc, path, value, "id")?;
//! let limit = read_number(alloc, path, value, "limit", LIMIT)?;
//! ```
#![tactic(auto)]

mod error;
mod form;
mod lists;
mod names;
mod paths;

pub use error::FieldError;
pub use form::{
    Range, parse, read_flag_or, read_items, read_items_or_none, read_number, read_number_or,
    read_text, refuse_unknown,
};
pub use lists::{refuse_long, use_name};
pub use names::{is_id, is_journal_name, read_id, read_journal_name};
pub use paths::{path_below, path_of_item};
