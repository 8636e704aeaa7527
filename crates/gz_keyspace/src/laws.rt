//! Laws of spaces of keys and their mirrors.
ghost use Rattle.std.specs.Prelude.{List};
ghost use Rattle.gz_label.specs.declared.keys.Change.{Change};
ghost use Rattle.gz_keyspace.specs.Keys.{IsNumbered};
ghost use Rattle.gz_keyspace.specs.Mirrors.{MirrorLaw};

/// Whichever of a key space's changes a mirror was given, in any order and any number of times, it is the key map
/// of the changes at its revision.
#[tactic(auto, using(crate::proofs::MirrorLemmas::mirror_law))]
pub fn mirrors_agree()
    ensures { (changes : List Change) → IsNumbered changes → MirrorLaw changes }
{}
