//! A fragment.

use crate::name::FragmentName;
use gz_label::Blob;

/// A named content.
#[derive(Debug, Drop)]
pub struct Fragment {
    /// Where the content stands in its journal, and its sum.
    pub name: FragmentName,
    /// The bytes.
    pub content: Blob,
}
