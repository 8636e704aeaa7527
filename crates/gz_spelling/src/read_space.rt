//! Reading the key space's messages, each of all of the bytes.
ghost use Rattle.gz_codec.specs.Reading.{Gives};
ghost use Rattle.gz_spelling.specs.Messages.{message_at};

use gz_codec::{
    FieldError, changes_at, compares_at, content_at, end_at, name_at, number_at, writes_at,
};
use gz_wire::{Kind, Msg};
use std::alloc::Global;

#[tactic(auto, unfolding(crate::specs::Messages::message_at))]
pub fn ks_txn_in(alloc: Global, bytes: &[u8]) -> Result<Msg, FieldError>
    ensures { Gives (λ msg. msg) result (message_at Kind.KsTxn bytes.now) }
{
    let (req, rest) = number_at(1, bytes)?;
    let (compares, rest) = compares_at(alloc, 2, rest)?;
    let (writes, rest) = writes_at(alloc, 3, rest)?;
    end_at(4, rest)?;
    Ok(Msg::KsTxn {
        req,
        compares,
        writes,
    })
}

#[tactic(auto, unfolding(crate::specs::Messages::message_at))]
pub fn ks_txn_ok_in(bytes: &[u8]) -> Result<Msg, FieldError>
    ensures { Gives (λ msg. msg) result (message_at Kind.KsTxnOk bytes.now) }
{
    let (req, rest) = number_at(1, bytes)?;
    let (revision, rest) = number_at(2, rest)?;
    end_at(3, rest)?;
    Ok(Msg::KsTxnOk { req, revision })
}

#[tactic(auto, unfolding(crate::specs::Messages::message_at))]
pub fn ks_txn_no_in(alloc: Global, bytes: &[u8]) -> Result<Msg, FieldError>
    ensures { Gives (λ msg. msg) result (message_at Kind.KsTxnNo bytes.now) }
{
    let (req, rest) = number_at(1, bytes)?;
    let (status, rest) = number_at(2, rest)?;
    let (key, rest) = name_at(alloc, 3, rest)?;
    let (revision, rest) = number_at(4, rest)?;
    end_at(5, rest)?;
    Ok(Msg::KsTxnNo {
        req,
        status,
        key,
        revision,
    })
}

#[tactic(auto, unfolding(crate::specs::Messages::message_at))]
pub fn ks_since_in(bytes: &[u8]) -> Result<Msg, FieldError>
    ensures { Gives (λ msg. msg) result (message_at Kind.KsSince bytes.now) }
{
    let (req, rest) = number_at(1, bytes)?;
    let (after, rest) = number_at(2, rest)?;
    end_at(3, rest)?;
    Ok(Msg::KsSince { req, after })
}

#[tactic(auto, unfolding(crate::specs::Messages::message_at))]
pub fn ks_since_done_in(alloc: Global, bytes: &[u8]) -> Result<Msg, FieldError>
    ensures { Gives (λ msg. msg) result (message_at Kind.KsSinceDone bytes.now) }
{
    let (req, rest) = number_at(1, bytes)?;
    let (head, rest) = number_at(2, rest)?;
    let (changes, rest) = changes_at(alloc, 3, rest)?;
    end_at(4, rest)?;
    Ok(Msg::KsSinceDone { req, head, changes })
}

#[tactic(auto, unfolding(crate::specs::Messages::message_at))]
pub fn ks_change_in(alloc: Global, bytes: &[u8]) -> Result<Msg, FieldError>
    ensures { Gives (λ msg. msg) result (message_at Kind.KsChange bytes.now) }
{
    let (revision, rest) = number_at(1, bytes)?;
    let (writes, rest) = writes_at(alloc, 2, rest)?;
    end_at(3, rest)?;
    Ok(Msg::KsChange { revision, writes })
}

#[tactic(auto, unfolding(crate::specs::Messages::message_at))]
pub fn ks_grant_in(alloc: Global, bytes: &[u8]) -> Result<Msg, FieldError>
    ensures { Gives (λ msg. msg) result (message_at Kind.KsGrant bytes.now) }
{
    let (req, rest) = number_at(1, bytes)?;
    let (key, rest) = name_at(alloc, 2, rest)?;
    let (value, rest) = content_at(alloc, 3, rest)?;
    end_at(4, rest)?;
    Ok(Msg::KsGrant { req, key, value })
}

#[tactic(auto, unfolding(crate::specs::Messages::message_at))]
pub fn ks_granted_in(bytes: &[u8]) -> Result<Msg, FieldError>
    ensures { Gives (λ msg. msg) result (message_at Kind.KsGranted bytes.now) }
{
    let (req, rest) = number_at(1, bytes)?;
    let (lease, rest) = number_at(2, rest)?;
    end_at(3, rest)?;
    Ok(Msg::KsGranted { req, lease })
}
