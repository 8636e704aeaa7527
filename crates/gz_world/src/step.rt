//! Steps of a run.
ghost use Rattle.std.specs.Prelude.{◌≡◌, option_map};

use gz_converge::Converged;
use std::marker::Model;
use std::snapshot::Snapshot;

/// A step of a run, which only proofs read: the line of its event, and what the converge answered with which the event
/// begins, where it begins with one.
#[derive(Drop)]
pub struct Step {
    line: u64,
    answer: Option<Snapshot<Converged>>,
}

impl Model for Step {
    ghost use Rattle.std.specs.Prelude.{option_map};
    ghost use Rattle.gz_world.specs.Worlds.{Step as Seen};

    ghost Value = { Seen };

    ghost view = { λ a. record { line = a.line; answer = option_map (λ s. s.value) a.answer } };
}

impl Step {
    /// The step of a line, with this answer of its converge. It takes no memory.
    pub fn of(line: u64, answer: Option<Snapshot<Converged>>) -> Step
        ensures { result ≡ record { line = line; answer = option_map (λ s. s.value) answer } }
    {
        Step { line, answer }
    }
}
