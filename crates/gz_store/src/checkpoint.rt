//! What a commit keeps.
use gz_app::State;
use gz_label::Name;
use gz_recovery::Text;
use gz_sequencer::SourcePoint;
use std::marker::Model;

/// An acknowledgement that is to go into a journal: its line, with the newline.
#[derive(Drop)]
pub struct Intent {
    pub journal: Name,
    pub line: Text,
}

/// What has been read of a source.
#[derive(Drop)]
pub struct Source {
    pub journal: Name,
    pub point: SourcePoint,
}

/// What has been read, and the acknowledgements that are to go out.
#[derive(Drop)]
pub struct Checkpoint {
    pub sources: Vec<Source>,
    pub intents: Vec<Intent>,
}

/// A commit: the checkpoint and the state.
#[derive(Drop)]
pub struct Store {
    pub checkpoint: Checkpoint,
    pub state: State,
}

impl Model for Intent {
    ghost use Rattle.gz_store.specs.Stores.{Intent as Seen};

    ghost Value = { Seen };

    ghost view = { λ a. record { journal = a.journal; line = a.line } };
}

impl Model for Source {
    ghost use Rattle.gz_store.specs.Stores.{Source as Seen};

    ghost Value = { Seen };

    ghost view = { λ a. record { journal = a.journal; point = a.point } };
}

impl Model for Checkpoint {
    ghost use Rattle.gz_store.specs.Stores.{Checkpoint as Seen};

    ghost Value = { Seen };

    ghost view = { λ a. record { sources = a.sources.items; intents = a.intents.items } };
}

impl Model for Store {
    ghost use Rattle.gz_store.specs.Stores.{Store as Seen};

    ghost Value = { Seen };

    ghost view = { λ a. record { checkpoint = a.checkpoint; state = a.state } };
}
