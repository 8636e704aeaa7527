//! Reading messages between the members of a route, each of all of the bytes.
ghost use Rattle.gz_codec.specs.Reading.{Gives};
ghost use Rattle.gz_spelling.specs.Messages.{message_at};

use gz_codec::{FieldError, end_at, entry_at, image_at, name_at, number_at};
use gz_wire::{Kind, Msg};
use std::alloc::Global;

#[tactic(auto, unfolding(crate::specs::Messages::message_at))]
pub fn promise_in(alloc: Global, bytes: &[u8]) -> Result<Msg, FieldError>
    ensures { Gives (λ msg. msg) result (message_at Kind.Promise bytes.now) }
{
    let (journal, rest) = name_at(alloc, 1, bytes)?;
    let (epoch, rest) = number_at(2, rest)?;
    end_at(3, rest)?;
    Ok(Msg::Promise { journal, epoch })
}

#[tactic(auto, unfolding(crate::specs::Messages::message_at))]
pub fn promised_in(alloc: Global, bytes: &[u8]) -> Result<Msg, FieldError>
    ensures { Gives (λ msg. msg) result (message_at Kind.Promised bytes.now) }
{
    let (journal, rest) = name_at(alloc, 1, bytes)?;
    let (epoch, rest) = number_at(2, rest)?;
    let (adopted, rest) = number_at(3, rest)?;
    let (image, rest) = image_at(alloc, 4, rest)?;
    end_at(5, rest)?;
    Ok(Msg::Promised {
        journal,
        epoch,
        adopted,
        image,
    })
}

#[tactic(auto, unfolding(crate::specs::Messages::message_at))]
pub fn adopt_in(alloc: Global, bytes: &[u8]) -> Result<Msg, FieldError>
    ensures { Gives (λ msg. msg) result (message_at Kind.Adopt bytes.now) }
{
    let (journal, rest) = name_at(alloc, 1, bytes)?;
    let (epoch, rest) = number_at(2, rest)?;
    let (image, rest) = image_at(alloc, 3, rest)?;
    end_at(4, rest)?;
    Ok(Msg::Adopt {
        journal,
        epoch,
        image,
    })
}

#[tactic(auto, unfolding(crate::specs::Messages::message_at))]
pub fn adopted_in(alloc: Global, bytes: &[u8]) -> Result<Msg, FieldError>
    ensures { Gives (λ msg. msg) result (message_at Kind.Adopted bytes.now) }
{
    let (journal, rest) = name_at(alloc, 1, bytes)?;
    let (epoch, rest) = number_at(2, rest)?;
    let (end, rest) = number_at(3, rest)?;
    end_at(4, rest)?;
    Ok(Msg::Adopted {
        journal,
        epoch,
        end,
    })
}

#[tactic(auto, unfolding(crate::specs::Messages::message_at))]
pub fn refuse_in(alloc: Global, bytes: &[u8]) -> Result<Msg, FieldError>
    ensures { Gives (λ msg. msg) result (message_at Kind.Refuse bytes.now) }
{
    let (journal, rest) = name_at(alloc, 1, bytes)?;
    let (epoch, rest) = number_at(2, rest)?;
    let (code, rest) = number_at(3, rest)?;
    let (value, rest) = number_at(4, rest)?;
    end_at(5, rest)?;
    Ok(Msg::Refuse {
        journal,
        epoch,
        code,
        value,
    })
}

#[tactic(auto, unfolding(crate::specs::Messages::message_at))]
pub fn replicate_in(alloc: Global, bytes: &[u8]) -> Result<Msg, FieldError>
    ensures { Gives (λ msg. msg) result (message_at Kind.Replicate bytes.now) }
{
    let (journal, rest) = name_at(alloc, 1, bytes)?;
    let (epoch, rest) = number_at(2, rest)?;
    let (offset, rest) = number_at(3, rest)?;
    let (entry, rest) = entry_at(alloc, 4, rest)?;
    let (head, rest) = number_at(5, rest)?;
    end_at(6, rest)?;
    Ok(Msg::Replicate {
        journal,
        epoch,
        offset,
        entry,
        head,
    })
}

#[tactic(auto, unfolding(crate::specs::Messages::message_at))]
pub fn held_in(alloc: Global, bytes: &[u8]) -> Result<Msg, FieldError>
    ensures { Gives (λ msg. msg) result (message_at Kind.Held bytes.now) }
{
    let (journal, rest) = name_at(alloc, 1, bytes)?;
    let (epoch, rest) = number_at(2, rest)?;
    let (end, rest) = number_at(3, rest)?;
    end_at(4, rest)?;
    Ok(Msg::Held {
        journal,
        epoch,
        end,
    })
}

#[tactic(auto, unfolding(crate::specs::Messages::message_at))]
pub fn head_in(alloc: Global, bytes: &[u8]) -> Result<Msg, FieldError>
    ensures { Gives (λ msg. msg) result (message_at Kind.Head bytes.now) }
{
    let (journal, rest) = name_at(alloc, 1, bytes)?;
    let (epoch, rest) = number_at(2, rest)?;
    let (head, rest) = number_at(3, rest)?;
    let (begin, rest) = number_at(4, rest)?;
    end_at(5, rest)?;
    Ok(Msg::Head {
        journal,
        epoch,
        head,
        begin,
    })
}
