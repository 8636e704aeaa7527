//! What holds of every spool.
ghost use Rattle.std.specs.Prelude.{◌≡◌, ◌≤◌, ℕ};
ghost use Rattle.gz_label.specs.declared.entry.Entry.{Entry};
ghost use Rattle.gz_label.specs.declared.entry.Image.{Image};
ghost use Rattle.gz_spool.specs.Spools.{extended, raised, spool_end};

/// A head never falls and never passes the end, and raising it moves nothing else. An entry moves the head not at all.
pub fn heads_stay_within()
    ensures rises { (head : ℕ) (i : Image) → i.head ≤ (raised head i).head }
    ensures within { (head : ℕ) (i : Image) → i.head ≤ spool_end i →
        (raised head i).head ≤ spool_end i }
    ensures keeps { (head : ℕ) (i : Image) → (raised head i).entries ≡ i.entries }
    ensures stays { (entry : Entry) (i : Image) → (extended entry i).head ≡ i.head }
{}
