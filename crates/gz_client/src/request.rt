//! Requests of clients.
ghost use Rattle.std.specs.Prelude.{◌≡◌, IfOk, IsTrue};
ghost use Rattle.gz_scenario.specs.Lawful.{is_publish};
ghost use Rattle.gz_client.specs.Requests.{request_of};

use crate::content::print_drafts;
use gz_journal::Request;
use gz_label::{Attempt, NoMemory};
use gz_scenario::Publish;
use gz_uuid::ProducerId;
use std::alloc::Global;

/// The request that a publish is: the lines of its messages, each of the client's producer, as the attempt of the client
/// with this number. It expects no offset, takes any registers, and leaves them as they are.
#[tactic(auto, unfolding(gz_scenario::specs::Lawful::is_publish))]
pub fn request_of(alloc: Global, number: u64, publish: &Publish) -> Result<Request, NoMemory>
    requires { IsTrue (is_publish publish.now) }
    ensures { IfOk result (λ request. request ≡ request_of number publish.now) }
{
    let producer = ProducerId::client(publish.producer).unwrap();
    let content = print_drafts(alloc, producer, publish.messages.as_slice())?;
    let attempt = Attempt {
        node: publish.client.copy()?,
        req: number,
    };
    Ok(Request::plain(alloc, attempt, content))
}
