//! Laws of names.
ghost use Rattle.std.specs.Prelude.{◌≡◌, Some, List, ℕ};
ghost use Rattle.gz_fragment.specs.Names.{FragmentName, IsName, name_text, name_in};

/// A name's text is read as that name, and a text that is read as a name is that name's text. So each name has one
/// text, and each text is of one name at most.
#[tactic(auto, using(crate::proofs::NameTexts::read_back, crate::proofs::NameTexts::printed_back))]
pub fn names_both_ways()
    ensures read { (name : FragmentName) → IsName name → name_in (name_text name) ≡ Some name }
    ensures printed { (text : List ℕ) (name : FragmentName) → name_in text ≡ Some name →
        name_text name ≡ text }
{}
