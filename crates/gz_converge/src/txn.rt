//! Transactions that put one key.
ghost use Rattle.std.specs.Prelude.{◌≡◌};

use gz_label::{Compare, KeyWrite};
use std::marker::Model;

/// A transaction that puts one key, where the key still has the revision that was seen, 0 where it was absent.
#[derive(Debug, Drop)]
pub struct Txn {
    pub compare: Compare,
    pub write: KeyWrite,
}

/// Transactions in their order, which a contract sees as their list.
#[derive(Debug, Drop)]
pub struct Txns {
    items: Vec<Txn>,
}

impl Model for Txns {
    ghost use Rattle.std.specs.Prelude.{List};
    ghost use Rattle.gz_converge.specs.declared.txn.Txn.{Txn};

    ghost Value = { List Txn };

    ghost view = { λ a. a.items.items };
}

impl Txns {
    /// Makes transactions of the vector. It takes no memory.
    pub fn from_vec(items: Vec<Txn>) -> Txns
        ensures { result ≡ items.items }
    {
        Txns { items }
    }

    /// Gives the transactions back as a vector. It takes no memory.
    pub fn into_vec(self) -> Vec<Txn>
        ensures { result.items ≡ self }
    {
        self.items
    }

    /// The transactions. It takes no memory.
    pub fn as_slice(&self) -> &[Txn]
        ensures { result.now ≡ self.now }
    {
        self.items.as_slice()
    }
}
