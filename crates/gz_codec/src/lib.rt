//! The kinds of fields of messages, each with its one spelling: how a field is written, and how it is read.
//!
//! ```text
//! put_number(&mut out, epoch)?;                               // eight bytes, the high ones first
//! let (epoch, rest) = number_at(2, bytes)?;                   // the number, and the bytes behind it; or field 2 is bad
//! ```
#![tactic(auto)]

mod error;
mod field;
mod items;
mod labels;
mod laws;
mod puts;

pub use error::FieldError;
pub use field::{FieldKind, content_at, end_at, name_at, number_at, optional_at};
pub use items::{changes_at, compares_at, entry_at, image_at, names_at, writes_at};
pub use labels::labels_at;
pub use laws::fields_have_one_spelling;
pub use puts::{
    put_changes, put_compares, put_content, put_entry, put_image, put_labels, put_names,
    put_number, put_optional, put_text, put_writes,
};
