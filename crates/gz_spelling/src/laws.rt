//! Laws of spellings.
ghost use Rattle.std.specs.Prelude.{◌≡◌, ◌++◌, List, [], ℕ};
ghost use Rattle.gz_wire.specs.declared.msg.Msg.{Msg};
ghost use Rattle.gz_wire.specs.Kinds.{kind_of};
ghost use Rattle.gz_spelling.specs.Table.{HasKind};
ghost use Rattle.gz_spelling.specs.Wire.{FitsMessage, spelling};

use crate::{Table, messages};

impl<const N: usize> Table<N> {
    /// No spelling of the table's messages is a prefix of another one: where one begins with another, the two are of
    /// one message with one peer.
    pub fn no_spelling_is_a_prefix(&self)
        ensures { (p q : List ℕ) (m n : Msg) (more : List ℕ) → HasKind (kind_of m) self.now.rows →
            HasKind (kind_of n) self.now.rows → FitsMessage p m → FitsMessage q n →
            spelling p m ++ more ≡ spelling q n → (p ≡ q) × (m ≡ n) × (more ≡ []) }
    {}
}

/// No spelling is a prefix of another one, whatever the kinds of the two messages.
pub fn no_spelling_is_a_prefix()
    ensures { (p q : List ℕ) (m n : Msg) (more : List ℕ) → FitsMessage p m → FitsMessage q n →
        spelling p m ++ more ≡ spelling q n → (p ≡ q) × (m ≡ n) × (more ≡ []) }
{
    messages().no_spelling_is_a_prefix();
}
