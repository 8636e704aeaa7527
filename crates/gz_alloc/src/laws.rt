//! Laws on placements and cuts.
ghost use Rattle.std.specs.Prelude.{◌≡◌, ℕ, Bool, List, true, ◌≤◌};
ghost use Rattle.gz_alloc.specs.Names.{Asked, is_problem, IsFeasible, size, cut_capacity};
ghost use Rattle.gz_alloc.specs.Flow.{Net, IsNet, Cells, Keeps, total, capacity};

/// No table that keeps the bounds has more pairs than the capacity of a cut.
#[tactic(auto, using(crate::proofs::Duality::weak_duality))]
pub fn no_table_passes_a_cut()
    ensures { (net : Net) → IsNet net → (x : Cells) → Keeps net x → (chosen : ℕ → Bool) →
        (zones : ℕ → ℕ → Bool) → total net x ≤ capacity net chosen zones }
{}

/// No feasible placement has more pairs than the capacity of any cut.
#[tactic(auto, using(crate::proofs::Certificate::no_placement_passes))]
pub fn no_placement_passes_a_cut()
    ensures { (asked : Asked) → is_problem asked ≡ true → (pairs : List (List ℕ × List ℕ)) →
        IsFeasible asked pairs →
        (members : List (List ℕ)) → (zones : List (List ℕ × List ℕ)) → size asked pairs ≤ cut_capacity asked members zones }
{}
