//! Messages.
ghost use Rattle.std.specs.Prelude.{◌≡◌, ◌++◌, ◌∷◌, ◌≤◌, [], length, MatchOption, true, false, string_bytes, OnOk, OnErr, IsTrue};
ghost use Rattle.gz_frame.specs.Messages.{is_message, message_if, is_text_within};

use gz_label::{Blob, NoMemory};
use gz_uuid::{Flags, MsgClock, Parts, ProducerId};
use std::alloc::Global;
use std::marker::Model;

/// The most bytes of a key.
const MAX_KEY: usize = 256;

/// The most bytes of a value.
const MAX_VALUE: usize = 4096;

/// A message: who sent it, when and as what part of a transaction, and a key and a value, which are texts
/// of at most 256 and 4,096 bytes.
#[derive(Debug, Drop)]
pub struct Message {
    parts: Parts,
    key: String,
    value: String,
}

impl Model for Message {
    ghost use Rattle.std.specs.Prelude.{string_bytes, IsTrue};
    ghost use Rattle.gz_frame.specs.Messages.{Message as Seen, is_message};

    ghost Value = { Seen };

    ghost view = { λ a. record { producer = a.parts.producer; clock = a.parts.clock; flags = a.parts.flags; key = string_bytes a.key; value = string_bytes a.value } };

    ghost invariant = { λ a. IsTrue (is_message (record { producer = a.parts.producer; clock = a.parts.clock; flags = a.parts.flags; key = string_bytes a.key; value = string_bytes a.value })) };
}

/// The bytes as a text, where they are one of at most so many bytes. It takes no memory.
#[tactic(auto, using(crate::proofs::Texts::is_text, crate::proofs::Texts::is_no_text, crate::proofs::Texts::is_long_text))]
fn text_within(bytes: Blob, most: usize) -> Option<String>
    ensures { MatchOption result (is_text_within most bytes ≡ false)
        (λ text. (is_text_within most bytes ≡ true) × (string_bytes text ≡ bytes)) }
{
    if bytes.len() > most {
        return None;
    }
    match String::from_utf8(bytes.into_vec()) {
        Ok(text) => {
            let _valid = text.as_str();
            Some(text)
        }
        Err(_) => None,
    }
}

impl Message {
    /// The message of these parts, key and value. None exactly where the key or the value isn't UTF-8 or
    /// is longer than 256 or 4,096 bytes, or the flags aren't those of CONTINUE, OUTSIDE or ACK. It takes
    /// no memory.
    pub fn new(parts: Parts, key: Blob, value: Blob) -> Option<Message>
        ensures { result
            ≡ message_if
            (record {
              producer = parts.producer;
              clock = parts.clock;
              flags = parts.flags;
              key = key;
              value = value;
            }) }
    {
        let key = text_within(key, MAX_KEY)?;
        let value = text_within(value, MAX_VALUE)?;
        if parts.flags.bits() > Flags::ACK_TXN.bits() {
            return None;
        }
        Some(Message { parts, key, value })
    }

    /// The message of these parts, key and value, which are known to be short enough, with the flags of
    /// CONTINUE, OUTSIDE or ACK. It takes no memory.
    pub fn of(parts: Parts, key: String, value: String) -> Message
        requires short_key { length (string_bytes key) ≤ 256 }
        requires short_value { length (string_bytes value) ≤ 4096 }
        requires known_flags { parts.flags ≤ 2 }
        ensures { result
            ≡ record {
              producer = parts.producer;
              clock = parts.clock;
              flags = parts.flags;
              key = string_bytes key;
              value = string_bytes value;
            } }
    {
        let _key = key.as_str();
        let _value = value.as_str();
        Message { parts, key, value }
    }

    /// What its identifier carries.
    pub fn parts(&self) -> Parts
        ensures producer { result.producer ≡ self.now.producer }
        ensures clock { result.clock ≡ self.now.clock }
        ensures flags { result.flags ≡ self.now.flags }
        ensures lawful { IsTrue (is_message self.now) }
    {
        self.parts
    }

    /// The key, of at most 256 bytes.
    pub fn key(&self) -> &str
        ensures value { result.now ≡ self.now.key }
        ensures short { length self.now.key ≤ 256 }
    {
        self.key.as_str()
    }

    /// The value, of at most 4,096 bytes.
    pub fn value(&self) -> &str
        ensures value { result.now ≡ self.now.value }
        ensures short { length self.now.value ≤ 4096 }
    {
        self.value.as_str()
    }
}

/// Messages in order.
#[derive(Debug, Drop)]
pub struct Messages {
    items: Vec<Message>,
}

impl Model for Messages {
    ghost use Rattle.std.specs.Prelude.{List};
    ghost use Rattle.gz_frame.specs.Messages.{Message};

    ghost Value = { List Message };

    ghost view = { λ a. a.items.items };
}

impl Messages {
    /// No messages. It takes no memory.
    pub fn new(alloc: Global) -> Messages
        ensures { result ≡ [] }
    {
        Messages {
            items: Vec::new(alloc),
        }
    }

    /// Puts the message at the end. After NoMemory nothing has changed.
    pub fn push(&mut self, message: Message) -> Result<(), NoMemory>
        ensures ok { OnOk result (self.new ≡ self.old ++ message ∷ []) }
        ensures err { OnErr result (self.new ≡ self.old) }
    {
        self.items.push(message)?;
        Ok(())
    }

    /// Puts all of the messages at the end. After NoMemory nothing has changed.
    pub fn append(&mut self, more: Messages) -> Result<(), NoMemory>
        ensures ok { OnOk result (self.new ≡ self.old ++ more) }
        ensures err { OnErr result (self.new ≡ self.old) }
    {
        let mut items = more.items;
        self.items.append(&mut items)?;
        Ok(())
    }

    /// The messages. It takes no memory.
    pub fn as_slice(&self) -> &[Message]
        ensures { result.now ≡ self.now }
    {
        self.items.as_slice()
    }
}
