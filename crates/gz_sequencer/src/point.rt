//! What a checkpoint has of a source.
ghost use Rattle.std.specs.Prelude.{◌≡◌, []};
ghost use Rattle.gz_sequencer.specs.Machine.{least_from};

use gz_uuid::ProducerId;
use std::alloc::Global;
use std::collections::BTreeMap;
use std::marker::Model;

/// What a checkpoint has of a producer.
#[derive(Clone, Copy, Debug, PartialEq, Eq)]
pub struct ProducerMark {
    /// The greatest clock of its ACK and OUTSIDE messages, if it had any.
    pub ack: Option<u64>,
    /// The offset of its first message that waits for an acknowledgement, if any waits.
    pub pending: Option<u64>,
}

impl Model for ProducerMark {
    ghost use Rattle.gz_sequencer.specs.Machine.{Mark};

    ghost Value = { Mark };

    ghost view = { λ a. record { ack = a.ack; pending = a.pending } };

    ghost inverse = { λ mark. record { ack = mark.ack; pending = mark.pending } };
}

/// What a checkpoint has of a source: the offset after the last whole line, and a mark of each producer, in the
/// producers' order.
#[derive(Drop)]
pub struct SourcePoint {
    offset: u64,
    producers: BTreeMap<ProducerId, ProducerMark>,
}

impl Model for SourcePoint {
    ghost use Rattle.gz_sequencer.specs.Machine.{Point};

    ghost Value = { Point };

    ghost view = { λ a. record { offset = a.offset; producers = a.producers.entries } };
}

impl SourcePoint {
    /// A point at this offset, with no producers. It takes no memory.
    pub fn new(alloc: Global, offset: u64) -> SourcePoint
        ensures { result ≡ record { offset = offset; producers = [] } }
    {
        SourcePoint {
            offset,
            producers: BTreeMap::new(alloc),
        }
    }

    /// A point at this offset, with these marks. It takes no memory.
    pub fn of(offset: u64, producers: BTreeMap<ProducerId, ProducerMark>) -> SourcePoint
        ensures { result ≡ record { offset = offset; producers = producers.entries } }
    {
        SourcePoint { offset, producers }
    }

    /// The least of the offset and the offsets of the first messages that wait.
    pub fn least(&self) -> u64
        ensures { result ≡ least_from self.now.offset self.now.producers }
    {
        let mut least = self.offset;
        for (_producer, mark) in self.producers.iter() {
            if let Some(first) = mark.pending {
                least = least.min(first);
            }
        }
        least
    }

    /// The offset after the last whole line.
    pub fn offset(&self) -> u64
        ensures { result ≡ self.now.offset }
    {
        self.offset
    }

    /// The marks of the producers, in the producers' order.
    pub fn producers(&self) -> &BTreeMap<ProducerId, ProducerMark>
        ensures { result.now.entries ≡ self.now.producers }
    {
        &self.producers
    }
}
