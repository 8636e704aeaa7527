//! What holds of every application.
ghost use Rattle.std.specs.Prelude.{◌≡◌, ◌++◌, List};
ghost use Rattle.gz_frame.specs.Messages.{Message};
ghost use Rattle.gz_app.specs.States.{State};
ghost use Rattle.gz_app.specs.Applications.{Effect, fold_of};

/// The fold over messages and more messages goes on from the state after the first ones, and emits what
/// these emitted and then what the others do.
#[tactic(auto, using(crate::proofs::Folds::state_joined, crate::proofs::Folds::outputs_joined))]
pub fn fold_of_joined_messages()
    ensures state { (effect : State → Message → Effect) (state : State)
        (first more : List Message) →
        (fold_of effect state (first ++ more)).state ≡ (fold_of effect (fold_of effect state first).state more).state }
    ensures outputs { (effect : State → Message → Effect) (state : State)
        (first more : List Message) →
        (fold_of effect state (first ++ more)).outputs
        ≡ (fold_of effect state first).outputs ++ (fold_of effect (fold_of effect state first).state more).outputs }
{}
