//! What a judgement says of every journal.
ghost use Rattle.std.specs.Prelude.{List};
ghost use Rattle.gz_label.specs.declared.entry.Entry.{Entry};
ghost use Rattle.gz_journal.specs.declared.request.Request.{Request};
ghost use Rattle.gz_journal.specs.Laws.{Lands};

/// `judge` answers what `land` would on each journal with that end and those registers; and `after` is what its
/// registers are then.
#[tactic(auto, using(crate::proofs::Lands::lands))]
pub fn judgements_land()
    ensures { (entries : List Entry) (r : Request) → Lands entries r }
{}
