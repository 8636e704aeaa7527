//! The journal theorem, reduced: what holds of every run.
ghost use Rattle.std.specs.Prelude.{[], ◌++◌, ◌∷◌, List, Option, ℕ};
ghost use Rattle.gz_lineage.specs.Attempts.{LandsEachOnce, LandsOf, PutsEachOnce, requests_put};
ghost use Rattle.gz_lineage.specs.Handover.{CalmThroughout, HandoverThroughout, IsCalm};
ghost use Rattle.gz_lineage.specs.Nodes.{Report};
ghost use Rattle.gz_lineage.specs.Prefix.{IsPrefix};
ghost use Rattle.gz_lineage.specs.Rules.{best};
ghost use Rattle.gz_lineage.specs.Safety.{
  AcknowledgesWhatIsHeld,
  Always,
  HasLawfulJournal,
  HasWhatIsAcknowledged,
  HeadsAreWithin,
  IsBest,
  KeepsWhatIsAcknowledged,
  ResetsAfterAStop,
  ServesTheJournal,
  StoresTheJournal,
};
ghost use Rattle.gz_lineage.specs.World.{Event, run, start};

/// The journal is one list that only grows: whatever happens next, it begins with what it was. While handover holds,
/// what any broker serves, its spool up to its head, is a prefix of it, and so is what the store has.
pub fn journals_only_grow()
    ensures grows { (nodes : ℕ) (events more : List Event) →
        IsPrefix (run events (start nodes)).journal (run (events ++ more) (start nodes)).journal }
    ensures serves { Always ServesTheJournal }
    ensures heads { Always HeadsAreWithin }
    ensures stores { Always StoresTheJournal }
{}

/// Each entry of the journal is what a request adds that was judged at the place directly before it, with the
/// registers of that place.
pub fn entries_stand_where_they_land()
    ensures { Always HasLawfulJournal }
{}

/// Each attempt lands at most once where none is put twice: two places of the journal whose entries have the same
/// attempt are one place. And whatever is put, each entry of the journal is what a request adds that was put, judged at
/// the place directly before it.
pub fn an_attempt_lands_at_most_once()
    ensures once { (nodes : ℕ) (events : List Event) →
        HandoverThroughout events (start nodes) → PutsEachOnce events (start nodes) →
        LandsEachOnce (run events (start nodes)) }
    ensures put { (nodes : ℕ) (events : List Event) →
        HandoverThroughout events (start nodes) →
        LandsOf (requests_put events (start nodes)) (run events (start nodes)) }
{}

/// What was acknowledged is in the journal from then on: the journal has the place of each answer, and what the
/// primary of that epoch sent to the other members for a place below it stands there.
pub fn acknowledged_entries_stay()
    ensures reached { Always HasWhatIsAcknowledged }
    ensures stands { Always KeepsWhatIsAcknowledged }
{}

/// An append is acknowledged only when every other member of the route of its epoch holds it: each has said so, in a
/// letter that was taken.
pub fn acknowledged_only_when_held_by_all()
    ensures { Always AcknowledgesWhatIsHeld }
{}

/// A step adds a reset to the journal only where every member of the route has stopped that was open before: that of
/// the greatest epoch at which a primary became open.
pub fn resets_only_after_a_whole_route_stopped()
    ensures { Always ResetsAfterAStop }
{}

/// Handover ends only at a crash or at a converge that could lose members: each other event keeps it, and a run of
/// other events alone has it throughout.
pub fn handover_ends_only_at_a_crash_or_a_converge()
    ensures lasts { (nodes : ℕ) (events : List Event) (e : Event) →
        HandoverThroughout events (start nodes) → IsCalm (run events (start nodes)) e →
        HandoverThroughout (events ++ e ∷ []) (start nodes) }
    ensures calm { (nodes : ℕ) (events : List Event) →
        CalmThroughout events (start nodes) → HandoverThroughout events (start nodes) }
{}

/// Of the reports that adopted at least the sync key's epoch, one is chosen that adopted the greatest epoch, and of
/// those one that holds the most. So a choice loses no append that such a member holds, acknowledged or not.
pub fn the_newest_image_is_chosen()
    ensures { (opened : ℕ) (reports : List (ℕ × Option Report)) →
        IsBest opened reports (best opened reports) }
{}
