//! How a run ends.
ghost use Rattle.std.specs.Prelude.{◌≡◌};

/// How a run of a command ends.
#[derive(Clone, Copy, Debug, PartialEq, Eq)]
pub enum Exit {
    /// All was done and written.
    Done,
    /// The words are no command.
    Usage,
    /// A line or a file is refused.
    BadInput,
    /// The source failed.
    ReadFault,
    /// The sink failed.
    WriteFault,
    /// A file failed.
    FileFault,
    /// A peer couldn't be reached.
    PeerFault,
    /// A request was refused.
    Refused,
    /// Acknowledged bytes are lost.
    Lost,
    /// Memory ran out.
    NoMemory,
    /// What was received isn't what was sent.
    Mismatch,
    /// A served history is full.
    HistoryFull,
    /// A thread couldn't be started.
    SpawnFault,
    /// A peer's reply is none.
    BadPeer,
}

impl Exit {
    ghost use Rattle.gz_base.specs.Exits.{status_of};

    /// The status with which the program ends.
    pub fn status(self) -> u8
        ensures { result ≡ status_of self }
    {
        match self {
            Exit::Done => 0,
            Exit::Usage => 2,
            Exit::BadInput => 3,
            Exit::ReadFault => 4,
            Exit::WriteFault => 5,
            Exit::FileFault => 6,
            Exit::PeerFault => 7,
            Exit::Refused => 8,
            Exit::Lost => 9,
            Exit::NoMemory => 10,
            Exit::Mismatch => 11,
            Exit::HistoryFull => 12,
            Exit::SpawnFault => 13,
            Exit::BadPeer => 14,
        }
    }
}
