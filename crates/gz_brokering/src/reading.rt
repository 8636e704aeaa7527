//! Reads whose bytes the store was asked for.

use gz_label::Name;
use std::marker::Model;

/// A read whose bytes the store was asked for: the number of that request, who reads, and the read's number.
#[derive(Debug, Drop)]
pub struct Fetch {
    pub req: u64,
    pub reader: Name,
    pub read: u64,
}

impl Model for Fetch {
    ghost use Rattle.gz_broker.specs.Brokers.{Fetch};

    ghost Value = { Fetch };

    ghost view = { λ a. record { req = a.req; reader = a.reader; read = a.read } };
}
