//! Names of clients, and journals by name.
ghost use Rattle.std.specs.Prelude.{◌≡◌, [], MatchOption};
ghost use Rattle.gz_promise.specs.Journals.{entries_of};
ghost use Rattle.gz_world.specs.Worlds.{is_taken, reason_of};

use crate::reply::Reason;
use gz_client::Answer;
use gz_label::Name;
use gz_plain::{Cluster, Journal};
use gz_registry::Registry;
use gz_spec::is_reserved;

/// Whether the name isn't free: it is or was a member's, or is kept for the program's own.
pub fn is_taken(name: &Name, registry: &Registry) -> bool
    ensures { result ≡ is_taken name.now registry.now }
{
    registry.was_member(name) || is_reserved(name.as_slice())
}

/// The journal of this name; none where there is no such journal, and then the name has no entries.
pub fn journal_in<'a>(cluster: &'a Cluster, name: &[u8]) -> Option<&'a Journal>
    ensures { MatchOption result (entries_of name.now cluster.now.journals ≡ [])
        (λ journal. journal.now.entries ≡ entries_of name.now cluster.now.journals) }
{
    let journal = cluster.journals().get(cluster.place_of(name))?;
    Some(journal)
}

/// Why the event is refused whose client is told this; None where it is told as an answer.
pub fn reason_of(answer: &Answer) -> Option<Reason>
    ensures { result ≡ reason_of answer.now }
{
    match answer {
        Answer::NameUsed => Some(Reason::NameUsed),
        Answer::NoRoute => Some(Reason::NoRoute),
        Answer::TooLarge | Answer::NotFramed | Answer::Judged(_) => None,
    }
}
