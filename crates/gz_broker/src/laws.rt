//! What holds of every broker.
ghost use Rattle.std.specs.Prelude.{◌≡◌, List, false, true, ℕ};
ghost use Rattle.gz_broker.specs.Brokers.{Broker, Deliver, idle};
ghost use Rattle.gz_broker.specs.Step.{is_of_clients, is_of_nodes, step};
ghost use Rattle.gz_wire.specs.declared.msg.Msg.{Msg};

/// What a broker doesn't take changes nothing, and nothing is sent: of a client all but appends and
/// reads, and of other nodes all that is asked of the key space, of the store or of a client, and
/// each refusal of a member.
pub fn what_isnt_taken_does_nothing()
    ensures clients { (from : List ℕ) (msg : Msg) (b : Broker) → is_of_clients msg ≡ false →
        step b (Deliver from true msg) ≡ idle b }
    ensures nodes { (from : List ℕ) (msg : Msg) (b : Broker) → is_of_nodes msg ≡ false →
        step b (Deliver from false msg) ≡ idle b }
{}
