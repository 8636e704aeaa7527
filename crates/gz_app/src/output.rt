//! What an application emits.
ghost use Rattle.std.specs.Prelude.{◌≡◌, ◌++◌, ◌∷◌, ◌≤◌, ◌↔◌, [], length, IsTrue, OnOk};

use gz_label::NoMemory;
use std::alloc::Global;
use std::marker::Model;

/// A key of at most 256 bytes, and a value of at most 4,096.
#[derive(Debug, Drop)]
pub struct Output {
    key: String,
    value: String,
}

impl Model for Output {
    ghost use Rattle.std.specs.Prelude.{string_bytes, length, ◌≤◌};
    ghost use Rattle.gz_app.specs.Applications.{Output as Seen};

    ghost Value = { Seen };

    ghost view = { λ a. record { key = string_bytes a.key; value = string_bytes a.value } };

    ghost invariant = { λ a. (length (string_bytes a.key) ≤ 256) × (length (string_bytes a.value) ≤ 4096) };
}

ghost use Rattle.std.specs.Prelude.{string_bytes};

impl Output {
    /// An output of this key and value. It takes no memory.
    pub fn new(key: String, value: String) -> Output
        requires short_key { length (string_bytes key) ≤ 256 }
        requires short_value { length (string_bytes value) ≤ 4096 }
        ensures { result ≡ record { key = string_bytes key; value = string_bytes value } }
    {
        Output { key, value }
    }

    /// The key, of at most 256 bytes.
    pub fn key(&self) -> &str
        ensures value { result.now ≡ self.now.key }
        ensures short { length self.now.key ≤ 256 }
    {
        self.key.as_str()
    }

    /// The value, of at most 4,096 bytes.
    pub fn value(&self) -> &str
        ensures value { result.now ≡ self.now.value }
        ensures short { length self.now.value ≤ 4096 }
    {
        self.value.as_str()
    }
}

/// Outputs in order.
#[derive(Debug, Drop)]
pub struct Outputs {
    items: Vec<Output>,
}

impl Model for Outputs {
    ghost use Rattle.std.specs.Prelude.{List};
    ghost use Rattle.gz_app.specs.Applications.{Output};

    ghost Value = { List Output };

    ghost view = { λ a. a.items.items };
}

impl Outputs {
    /// No outputs. It takes no memory.
    pub fn new(alloc: Global) -> Outputs
        ensures { result ≡ [] }
    {
        Outputs {
            items: Vec::new(alloc),
        }
    }

    /// Puts the output at the end.
    pub fn push(&mut self, output: Output) -> Result<(), NoMemory>
        ensures { OnOk result (self.new ≡ self.old ++ output ∷ []) }
    {
        self.items.push(output)?;
        Ok(())
    }

    /// Whether there is none.
    pub fn is_empty(&self) -> bool
        ensures { IsTrue result ↔ (self.now ≡ []) }
    {
        self.items.is_empty()
    }

    /// The outputs. It takes no memory.
    pub fn as_slice(&self) -> &[Output]
        ensures { result.now ≡ self.now }
    {
        self.items.as_slice()
    }
}
