//! A shard can always go on.
ghost use Rattle.std.specs.Prelude.{◌≡◌, ◌∷◌, ℕ};
ghost use Rattle.gz_once.specs.Applications.{App};
ghost use Rattle.gz_once.specs.Log.{Committed};
ghost use Rattle.gz_once.specs.Processes.{Extent};
ghost use Rattle.gz_once.specs.Worlds.{World, run};
ghost use Rattle.gz_progress.specs.GoingOn.{CanCommit, IsLater, IsReady, commits, goes_on, transacted};

/// Whatever crashed, was lost or is still on its way: a process that begins anew and gets a draw and its answers is ready
/// to read, in force, and knows the whole log, which nothing has left and to which only its handoff has come.
pub fn the_next_process_goes_on()
    ensures { (g : App) (w : World) (process draw : ℕ) → IsLater g w draw →
        IsReady w (run g (goes_on g w process draw) w) process draw }
{}

/// A process that is ready and in force, and of whose sources something was released, gets its commit into the log, whole
/// and next, if its appends land and are answered.
pub fn what_is_released_is_committed()
    ensures { (g : App) (w : World) (process : ℕ) (extent : Extent) (to : ℕ → ℕ) →
        CanCommit g w process to →
        (run g (commits g w process extent to) w).shared.log ≡ Committed (transacted g w process extent to) ∷ w.shared.log }
{}
