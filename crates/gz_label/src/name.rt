//! Names.
ghost use Rattle.std.specs.Prelude.{◌≡◌, ◌≤◌, length, IfOk};
ghost use Rattle.gz_label.specs.Outcomes.{Gives};
ghost use Rattle.gz_label.specs.Names.{name_of};

use crate::NoMemory;
use std::alloc::{AllocError, AllocFailed, Global};
use std::cmp::Ordering;
use std::error::Error;
use std::fmt;
use std::hash::{Hash, Hasher};
use std::marker::Model;

/// The most bytes of a name.
const MAX_NAME: usize = 1024;

/// A text of at most 1,024 bytes, which a contract sees as its bytes.
#[derive(Debug, Drop)]
pub struct Name {
    text: String,
}

impl Model for Name {
    ghost use Rattle.std.specs.Prelude.{List, ℕ, string_bytes, length, ◌≤◌};

    ghost Value = { List ℕ };

    ghost view = { λ a. string_bytes a.text };

    ghost invariant = { λ a. length (string_bytes a.text) ≤ 1024 };
}

/// Why a text isn't what is read: a name, a set of labels or a selector.
#[derive(Clone, Copy, Debug, PartialEq, Eq)]
pub enum LabelError {
    /// What begins at this byte, counted from 0, isn't what should stand there.
    BadName { at: usize },
    /// There are more than 64 labels, or more than 64 terms.
    TooMany,
    /// Memory ran out.
    NoMemory,
}

impl From<NoMemory> for LabelError {
    ghost use Rattle.std.specs.Prelude.{◌≡◌};
    ghost use Rattle.gz_label.specs.declared.name.LabelError.TheVariants.{NoMemory};

    ghost from_gives = { λ _ e. e ≡ NoMemory };

    fn from(_e: NoMemory) -> LabelError {
        LabelError::NoMemory
    }
}

impl From<AllocError> for LabelError {
    ghost use Rattle.std.specs.Prelude.{◌≡◌};
    ghost use Rattle.gz_label.specs.declared.name.LabelError.TheVariants.{NoMemory};

    ghost from_gives = { λ _ e. e ≡ NoMemory };

    fn from(_e: AllocError) -> LabelError {
        LabelError::NoMemory
    }
}

impl<T: Drop> From<AllocFailed<T>> for LabelError {
    ghost use Rattle.std.specs.Prelude.{◌≡◌};
    ghost use Rattle.gz_label.specs.declared.name.LabelError.TheVariants.{NoMemory};

    ghost from_gives = { λ _ e. e ≡ NoMemory };

    fn from(_e: AllocFailed<T>) -> LabelError {
        LabelError::NoMemory
    }
}

impl fmt::Display for LabelError {
    fn fmt<W: fmt::Write>(&self, f: &mut fmt::Formatter<W>) -> fmt::Result {
        match self {
            LabelError::BadName { at } => write!(f, "byte {at} isn't what should stand there"),
            LabelError::TooMany => write!(f, "more than 64"),
            LabelError::NoMemory => write!(f, "out of memory"),
        }
    }
}

impl Error for LabelError {}

impl Name {
    /// The text as a name: UTF-8 of at most 1,024 bytes, which may be none. Else BadName with the first byte
    /// from which it isn't UTF-8, or with 1,024, the lesser; NoMemory where a name finds no memory.
    #[tactic(auto, using(crate::proofs::Utf8::is_utf8_of_text))]
    pub fn read(alloc: Global, text: &[u8]) -> Result<Name, LabelError>
        ensures { Gives (λ name. name) result (name_of text.now) }
    {
        match str::from_utf8(text) {
            Ok(valid) => {
                if valid.len() > MAX_NAME {
                    return Err(LabelError::BadName { at: MAX_NAME });
                }
                Ok(Name {
                    text: String::from_str(alloc, valid)?,
                })
            }
            Err(e) => Err(LabelError::BadName {
                at: e.valid_up_to().min(MAX_NAME),
            }),
        }
    }

    /// The text as a name, where it is known to have at most 1,024 bytes.
    pub fn of(alloc: Global, text: &str) -> Result<Name, NoMemory>
        requires { length text.now ≤ 1024 }
        ensures { IfOk result (λ name. name ≡ text.now) }
    {
        Ok(Name {
            text: String::from_str(alloc, text)?,
        })
    }

    /// The bytes of the text. It takes no memory.
    pub fn as_slice(&self) -> &[u8]
        ensures value { result.now ≡ self.now }
        ensures short { length self.now ≤ 1024 }
    {
        self.text.as_bytes()
    }

    /// The text. It takes no memory.
    pub fn as_str(&self) -> &str
        ensures value { result.now ≡ self.now }
        ensures short { length self.now ≤ 1024 }
    {
        self.text.as_str()
    }

    /// An equal value.
    pub fn copy(&self) -> Result<Name, NoMemory>
        ensures { IfOk result (λ name. name ≡ self.now) }
    {
        Ok(Name {
            text: self.text.clone()?,
        })
    }
}

impl fmt::Display for Name {
    fn fmt<W: fmt::Write>(&self, f: &mut fmt::Formatter<W>) -> fmt::Result {
        write!(f, "{}", self.as_str())
    }
}

impl PartialEq for Name {
    ghost use Rattle.std.specs.Prelude.{◌==◌};
    ghost use Rattle.std.proofs.Common.{rules};
    ghost use Rattle.std.specs.Cmp.Rules.{comparing};
    ghost use Rattle.std.specs.Cmp.Lexicographic.{pointwise};

    ghost eq = { pointwise ◌==◌ };

    ghost laws = { Prim.search (comparing, rules) };

    fn eq(&self, other: &Name) -> bool {
        self.text.as_str() == other.text.as_str()
    }
}

impl Eq for Name {
    ghost use Rattle.std.proofs.Common.{rules};
    ghost use Rattle.std.specs.Cmp.Rules.{comparing};

    ghost laws = { Prim.search (comparing, rules) };
}

impl Ord for Name {
    ghost use Rattle.std.proofs.Common.{rules};
    ghost use Rattle.std.specs.Cmp.Rules.{comparing};
    ghost use Rattle.std.specs.Ordering.{nat_cmp};
    ghost use Rattle.std.specs.Cmp.Lexicographic.{slice_cmp};

    ghost cmp = { slice_cmp nat_cmp };

    ghost total = { Prim.search (comparing, rules) };

    ghost matches_partial_cmp = { Prim.search (comparing, rules) };

    ghost matches_eq = { Prim.search (comparing, rules) };

    fn cmp(&self, other: &Name) -> Ordering {
        self.text.as_str().cmp(other.text.as_str())
    }
}

impl PartialOrd for Name {
    ghost use Rattle.std.proofs.Common.{rules};
    ghost use Rattle.std.specs.Cmp.{partial_order_from_own_ties};
    ghost use Rattle.std.specs.Cmp.Rules.{comparing};
    ghost use Rattle.std.specs.Ordering.{nat_cmp, as_partial_cmp};
    ghost use Rattle.std.specs.Cmp.Lexicographic.{slice_cmp};

    ghost partial_cmp = { as_partial_cmp (slice_cmp nat_cmp) };

    ghost laws = { partial_order_from_own_ties (Prim.search (comparing, rules)) (Prim.search (comparing, rules)) };

    fn partial_cmp(&self, other: &Name) -> Option<Ordering> {
        Some(self.text.as_str().cmp(other.text.as_str()))
    }
}

impl Hash for Name {
    ghost use Rattle.std.proofs.Common.{rules};
    ghost use Rattle.std.specs.Hash as fed;
    ghost use Rattle.std.specs.Cmp.Rules.{hashing};

    ghost hash_input = { fed.str };

    ghost respects_eq = { Prim.search (hashing, rules) };

    fn hash<H: Hasher>(&self, state: &mut H) {
        self.text.as_str().hash(state)
    }
}
