//! What holds of every member.
ghost use Rattle.std.specs.Prelude.{◌≡◌, ◌<◌, List, ℕ};
ghost use Rattle.gz_label.specs.declared.entry.Entry.{Entry};
ghost use Rattle.gz_label.specs.declared.entry.Image.{Image};
ghost use Rattle.gz_replica.specs.Member.{Member};
ghost use Rattle.gz_replica.specs.Replicating.{on_adopt, on_promise, on_replicate};

/// What is of an epoch below the promised one changes nothing: no promise, image or entry.
pub fn a_stale_epoch_changes_nothing()
    ensures promise { (j : List ℕ) (m : Member) (from : List ℕ) (epoch : ℕ) → epoch < m.promised →
        (on_promise j m from epoch).member ≡ m }
    ensures adopt { (j : List ℕ) (m : Member) (from : List ℕ) (epoch : ℕ) (image : Image) →
        epoch < m.promised → (on_adopt j m from epoch image).member ≡ m }
    ensures replicate { (j : List ℕ) (m : Member) (from : List ℕ) (epoch offset : ℕ) (entry : Entry)
        (head : ℕ) → epoch < m.promised → (on_replicate j m from epoch offset entry head).member ≡ m }
{}
