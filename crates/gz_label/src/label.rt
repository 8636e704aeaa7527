//! Labels.
ghost use Rattle.std.specs.Prelude.{◌≡◌, IfOk, Ok, IsTrue, is_some};
ghost use Rattle.std.specs.List.{list_all};
ghost use Rattle.gz_label.specs.Labels.{is_name_byte, is_value_byte, is_label_name, is_label_value, is_label, label_of, same_label};
ghost use Rattle.gz_label.specs.Outcomes.{Gives};

use crate::{LabelError, Name, NoMemory};
use std::alloc::Global;

/// The most bytes of a label's name.
const MAX_LABEL_NAME: usize = 64;

/// The most bytes of a label's value.
const MAX_LABEL_VALUE: usize = 255;

/// A name and a value. Labels are ordered by name, and then by value, byte by byte.
#[derive(Debug, Drop, PartialEq, Eq, PartialOrd, Ord)]
pub struct Label {
    pub name: Name,
    pub value: Name,
}

fn is_name_byte(byte: u8) -> bool
    ensures { result ≡ is_name_byte byte }
{
    byte.is_ascii_alphanumeric() || byte == b'_' || byte == b'.' || byte == b'/' || byte == b'-'
}

fn are_name_bytes(text: &[u8]) -> bool
    ensures { result ≡ list_all is_name_byte text.now }
{
    text.iter().all(|byte| is_name_byte(*byte))
}

/// Whether the text is a label's name: 1 to 64 letters, digits, `_`, `.`, `/` or `-`. It takes no memory.
#[tactic(auto, unfolding(crate::specs::Labels::is_label_name))]
pub fn is_label_name(text: &[u8]) -> bool
    ensures { result ≡ is_label_name text.now }
{
    text.len() >= 1 && text.len() <= MAX_LABEL_NAME && are_name_bytes(text)
}

fn is_value_byte(byte: u8) -> bool
    ensures { result ≡ is_value_byte byte }
{
    byte >= 0x21 && byte <= 0x7e && byte != b',' && byte != b'=' && byte != b'!'
}

fn are_value_bytes(text: &[u8]) -> bool
    ensures { result ≡ list_all is_value_byte text.now }
{
    text.iter().all(|byte| is_value_byte(*byte))
}

/// Whether the text is a label's value: at most 255 bytes from 0x21 to 0x7e, none of which is `,`, `=` or
/// `!`. It takes no memory.
#[tactic(auto, unfolding(crate::specs::Labels::is_label_value))]
pub fn is_label_value(text: &[u8]) -> bool
    ensures { result ≡ is_label_value text.now }
{
    text.len() <= MAX_LABEL_VALUE && are_value_bytes(text)
}

/// Whether the name is a label's name and the value a label's value. It takes no memory.
#[tactic(auto, unfolding(crate::specs::Labels::label_of))]
pub fn is_label(name: &[u8], value: &[u8]) -> bool
    ensures { result ≡ is_some (label_of name.now value.now) }
{
    is_label_name(name) && is_label_value(value)
}

/// The label's name.
#[tactic(auto, using(crate::proofs::Plain::name_of_label_name))]
pub fn read_label_name(alloc: Global, text: &[u8]) -> Result<Name, LabelError>
    requires { IsTrue (is_label_name text.now) }
    ensures { Gives (λ name. name) result (Ok text.now) }
{
    let name = Name::read(alloc, text)?;
    Ok(name)
}

/// The label's value.
#[tactic(auto, using(crate::proofs::Plain::name_of_label_value))]
fn read_label_value(alloc: Global, text: &[u8]) -> Result<Name, LabelError>
    requires { IsTrue (is_label_value text.now) }
    ensures { Gives (λ name. name) result (Ok text.now) }
{
    let name = Name::read(alloc, text)?;
    Ok(name)
}

impl Label {
    /// The label of this name and value, or None where the name is no label's name or the value no label's
    /// value.
    #[tactic(auto, unfolding(crate::specs::Labels::label_of))]
    pub fn of(alloc: Global, name: &[u8], value: &[u8]) -> Result<Option<Label>, LabelError>
        ensures { Gives (λ label. label) result (Ok (label_of name.now value.now)) }
    {
        if !(is_label_name(name) && is_label_value(value)) {
            return Ok(None);
        }
        let name = read_label_name(alloc, name)?;
        let value = read_label_value(alloc, value)?;
        Ok(Some(Label { name, value }))
    }

    /// Whether the two are equal. It takes no memory.
    pub fn is_same(&self, other: &Label) -> bool
        ensures { result ≡ same_label self.now other.now }
    {
        self.name.as_slice() == other.name.as_slice()
            && self.value.as_slice() == other.value.as_slice()
    }

    /// Whether the name is a label's name and the value a label's value. It takes no memory.
    #[tactic(auto, unfolding(crate::specs::Labels::is_label))]
    pub fn is_valid(&self) -> bool
        ensures { result ≡ is_label self.now }
    {
        is_label_name(self.name.as_slice()) && is_label_value(self.value.as_slice())
    }

    /// An equal value.
    pub fn copy(&self) -> Result<Label, NoMemory>
        ensures { IfOk result (λ label. label ≡ self.now) }
    {
        Ok(Label {
            name: self.name.copy()?,
            value: self.value.copy()?,
        })
    }
}
