//! Laws on routes.
ghost use Rattle.std.specs.Prelude.{◌≡◌, ◌≤◌, ◌⊎◌, ℕ, List, ◌∷◌, Option, Some, true, false};
ghost use Rattle.gz_keyspace.specs.Formats.{is_in};
ghost use Rattle.gz_converge.specs.declared.view.Listed.{Listed};
ghost use Rattle.gz_converge.specs.declared.view.Synced.{Synced};
ghost use Rattle.gz_converge.specs.Cases.{is_synced, ids_in, next_route};
ghost use Rattle.gz_converge.specs.Converged.{Pairs, Converges};
ghost use Rattle.gz_converge.specs.Steps.{Round, AreRounds, changes};

/// A member that has its key leaves a route only where the sync key says the route's epoch, wherever the journal is
/// placed.
#[tactic(auto, using(crate::proofs::Leaving::leaves_synced))]
pub fn a_member_leaves_a_synced_route_alone()
    ensures { (members placed : List (List ℕ)) → (route : Listed) → (sync : Option Synced) →
        (next : List (List ℕ)) → (id : List ℕ) →
        next_route members placed (Some route) sync ≡ Some next →
        is_in id route.ids ≡ true → is_in id members ≡ true → is_in id next ≡ false →
        is_synced sync route.revision ≡ true }
{}

/// A route moves towards the placement: whoever comes is placed, and whoever is placed and has the key stays.
#[tactic(auto, using(crate::proofs::Leaving::comes_placed, crate::proofs::Leaving::placed_stays))]
pub fn a_route_moves_towards_the_placement()
    ensures comes { (members placed : List (List ℕ)) → (route : Option Listed) →
        (sync : Option Synced) → (next : List (List ℕ)) → (id : List ℕ) →
        next_route members placed route sync ≡ Some next → is_in id next ≡ true →
        (is_in id (ids_in route) ≡ true) ⊎ (is_in id placed ≡ true) }
    ensures stays { (members placed : List (List ℕ)) → (route : Listed) →
        (sync : Option Synced) → (next : List (List ℕ)) → (id : List ℕ) →
        next_route members placed (Some route) sync ≡ Some next →
        is_in id route.ids ≡ true → is_in id members ≡ true → is_in id placed ≡ true →
        is_in id next ≡ true }
{}

/// While members and specifications stay, the answer for the journals changes at most once after the first converge,
/// whatever sync keys say in between and whichever transactions are made.
#[tactic(auto, using(crate::proofs::Rounds::changes_once))]
pub fn an_answer_changes_at_most_once()
    ensures { (goal : Pairs) → (r : Round) → (rs : List Round) →
        Converges r.view goal r.answer → AreRounds (r ∷ rs) → changes (r ∷ rs) ≤ 1 }
{}
