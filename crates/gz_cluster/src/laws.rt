//! What holds of every event.
ghost use Rattle.std.specs.Prelude.{◌≡◌, ◌+◌, List, length};
ghost use Rattle.gz_cluster.specs.Cluster.{Cluster};
ghost use Rattle.gz_cluster.specs.Events.{Event, happens};

/// Each message that an event sends is counted, whatever the event.
#[tactic(auto, using(crate::proofs::Counts::sends_are_counted))]
pub fn sends_are_counted()
    ensures { (c : Cluster) (e : Event) →
        (happens c e).cluster.sent ≡ c.sent + length (happens c e).said }
{}
