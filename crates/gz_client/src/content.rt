//! The bytes that messages are.
ghost use Rattle.std.specs.Prelude.{◌≡◌, IfOk, IsTrue};
ghost use Rattle.std.specs.List.{list_all};
ghost use Rattle.gz_scenario.specs.Lawful.{is_draft};
ghost use Rattle.gz_client.specs.Contents.{flags_of, message_at, content_at};

use gz_frame::{Message, print_line};
use gz_label::{Blob, NoMemory};
use gz_scenario::{Draft, Flag};
use gz_uuid::{Flags, MsgClock, Parts, ProducerId};
use std::alloc::Global;

fn flags_of(flag: Flag) -> Flags
    ensures { result ≡ flags_of flag }
{
    match flag {
        Flag::Outside => Flags::OUTSIDE_TXN,
        Flag::Continue => Flags::CONTINUE_TXN,
        Flag::Ack => Flags::ACK_TXN,
    }
}

/// The draft as a message of this producer.
fn message_of(alloc: Global, producer: ProducerId, draft: &Draft) -> Result<Message, NoMemory>
    requires { IsTrue (is_draft draft.now) }
    ensures { IfOk result (λ message. message ≡ message_at producer draft.now) }
{
    let flags = flags_of(draft.flag);
    let clock = MsgClock::new(draft.clock);
    let parts = Parts {
        producer,
        clock,
        flags,
    };
    let key = String::from_str(alloc, draft.key.as_str())?;
    let value = String::from_str(alloc, draft.value.as_str())?;
    Ok(Message::of(parts, key, value))
}

/// The lines of the drafts as messages of this producer.
pub fn print_drafts(alloc: Global, producer: ProducerId, drafts: &[Draft]) -> Result<Blob, NoMemory>
    requires { IsTrue (list_all is_draft drafts.now) }
    ensures { IfOk result (λ content. content ≡ content_at producer drafts.now) }
{
    let mut content = Blob::new(alloc);
    for draft in drafts {
        let message = message_of(alloc, producer, draft)?;
        let line = print_line(alloc, &message)?;
        content.append(line.as_slice())?;
    }
    Ok(content)
}
