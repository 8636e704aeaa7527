//! Reading messages of clients and of the store, each of all of the bytes.
ghost use Rattle.gz_codec.specs.Reading.{Gives};
ghost use Rattle.gz_spelling.specs.Messages.{message_at};

use gz_codec::{
    FieldError, content_at, end_at, labels_at, name_at, names_at, number_at, optional_at,
};
use gz_wire::{Kind, Msg};
use std::alloc::Global;

#[tactic(auto, unfolding(crate::specs::Messages::message_at))]
pub fn append_in(alloc: Global, bytes: &[u8]) -> Result<Msg, FieldError>
    ensures { Gives (λ msg. msg) result (message_at Kind.Append bytes.now) }
{
    let (req, rest) = number_at(1, bytes)?;
    let (journal, rest) = name_at(alloc, 2, rest)?;
    let (epoch, rest) = optional_at(3, rest)?;
    let (offset, rest) = optional_at(4, rest)?;
    let (selector, rest) = name_at(alloc, 5, rest)?;
    let (take, rest) = labels_at(alloc, 6, rest)?;
    let (add, rest) = labels_at(alloc, 7, rest)?;
    let (content, rest) = content_at(alloc, 8, rest)?;
    end_at(9, rest)?;
    Ok(Msg::Append {
        req,
        journal,
        epoch,
        offset,
        selector,
        take,
        add,
        content,
    })
}

#[tactic(auto, unfolding(crate::specs::Messages::message_at))]
pub fn append_done_in(alloc: Global, bytes: &[u8]) -> Result<Msg, FieldError>
    ensures { Gives (λ msg. msg) result (message_at Kind.AppendDone bytes.now) }
{
    let (req, rest) = number_at(1, bytes)?;
    let (journal, rest) = name_at(alloc, 2, rest)?;
    let (status, rest) = number_at(3, rest)?;
    let (begin, rest) = number_at(4, rest)?;
    let (end, rest) = number_at(5, rest)?;
    let (value, rest) = number_at(6, rest)?;
    let (labels, rest) = labels_at(alloc, 7, rest)?;
    let (route, rest) = names_at(alloc, 8, rest)?;
    end_at(9, rest)?;
    Ok(Msg::AppendDone {
        req,
        journal,
        status,
        begin,
        end,
        value,
        labels,
        route,
    })
}

#[tactic(auto, unfolding(crate::specs::Messages::message_at))]
pub fn read_in(alloc: Global, bytes: &[u8]) -> Result<Msg, FieldError>
    ensures { Gives (λ msg. msg) result (message_at Kind.Read bytes.now) }
{
    let (req, rest) = number_at(1, bytes)?;
    let (journal, rest) = name_at(alloc, 2, rest)?;
    let (offset, rest) = number_at(3, rest)?;
    end_at(4, rest)?;
    Ok(Msg::Read {
        req,
        journal,
        offset,
    })
}

#[tactic(auto, unfolding(crate::specs::Messages::message_at))]
pub fn read_done_in(alloc: Global, bytes: &[u8]) -> Result<Msg, FieldError>
    ensures { Gives (λ msg. msg) result (message_at Kind.ReadDone bytes.now) }
{
    let (req, rest) = number_at(1, bytes)?;
    let (journal, rest) = name_at(alloc, 2, rest)?;
    let (status, rest) = number_at(3, rest)?;
    let (offset, rest) = number_at(4, rest)?;
    let (content, rest) = content_at(alloc, 5, rest)?;
    let (head, rest) = number_at(6, rest)?;
    let (route, rest) = names_at(alloc, 7, rest)?;
    end_at(8, rest)?;
    Ok(Msg::ReadDone {
        req,
        journal,
        status,
        offset,
        content,
        head,
        route,
    })
}

#[tactic(auto, unfolding(crate::specs::Messages::message_at))]
pub fn store_put_in(alloc: Global, bytes: &[u8]) -> Result<Msg, FieldError>
    ensures { Gives (λ msg. msg) result (message_at Kind.StorePut bytes.now) }
{
    let (req, rest) = number_at(1, bytes)?;
    let (journal, rest) = name_at(alloc, 2, rest)?;
    let (begin, rest) = number_at(3, rest)?;
    let (end, rest) = number_at(4, rest)?;
    let (content, rest) = content_at(alloc, 5, rest)?;
    end_at(6, rest)?;
    Ok(Msg::StorePut {
        req,
        journal,
        begin,
        end,
        content,
    })
}

#[tactic(auto, unfolding(crate::specs::Messages::message_at))]
pub fn store_done_in(alloc: Global, bytes: &[u8]) -> Result<Msg, FieldError>
    ensures { Gives (λ msg. msg) result (message_at Kind.StoreDone bytes.now) }
{
    let (req, rest) = number_at(1, bytes)?;
    let (journal, rest) = name_at(alloc, 2, rest)?;
    let (begin, rest) = number_at(3, rest)?;
    let (end, rest) = number_at(4, rest)?;
    end_at(5, rest)?;
    Ok(Msg::StoreDone {
        req,
        journal,
        begin,
        end,
    })
}

#[tactic(auto, unfolding(crate::specs::Messages::message_at))]
pub fn store_get_in(alloc: Global, bytes: &[u8]) -> Result<Msg, FieldError>
    ensures { Gives (λ msg. msg) result (message_at Kind.StoreGet bytes.now) }
{
    let (req, rest) = number_at(1, bytes)?;
    let (journal, rest) = name_at(alloc, 2, rest)?;
    let (offset, rest) = number_at(3, rest)?;
    end_at(4, rest)?;
    Ok(Msg::StoreGet {
        req,
        journal,
        offset,
    })
}

#[tactic(auto, unfolding(crate::specs::Messages::message_at))]
pub fn store_got_in(alloc: Global, bytes: &[u8]) -> Result<Msg, FieldError>
    ensures { Gives (λ msg. msg) result (message_at Kind.StoreGot bytes.now) }
{
    let (req, rest) = number_at(1, bytes)?;
    let (journal, rest) = name_at(alloc, 2, rest)?;
    let (status, rest) = number_at(3, rest)?;
    let (offset, rest) = number_at(4, rest)?;
    let (content, rest) = content_at(alloc, 5, rest)?;
    end_at(6, rest)?;
    Ok(Msg::StoreGot {
        req,
        journal,
        status,
        offset,
        content,
    })
}

#[tactic(auto, unfolding(crate::specs::Messages::message_at))]
pub fn store_list_in(alloc: Global, bytes: &[u8]) -> Result<Msg, FieldError>
    ensures { Gives (λ msg. msg) result (message_at Kind.StoreList bytes.now) }
{
    let (req, rest) = number_at(1, bytes)?;
    let (journal, rest) = name_at(alloc, 2, rest)?;
    end_at(3, rest)?;
    Ok(Msg::StoreList { req, journal })
}

#[tactic(auto, unfolding(crate::specs::Messages::message_at))]
pub fn store_names_in(alloc: Global, bytes: &[u8]) -> Result<Msg, FieldError>
    ensures { Gives (λ msg. msg) result (message_at Kind.StoreNames bytes.now) }
{
    let (req, rest) = number_at(1, bytes)?;
    let (journal, rest) = name_at(alloc, 2, rest)?;
    let (names, rest) = names_at(alloc, 3, rest)?;
    end_at(4, rest)?;
    Ok(Msg::StoreNames {
        req,
        journal,
        names,
    })
}
