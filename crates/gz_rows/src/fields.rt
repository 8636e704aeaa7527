//! The fields of a message, as rows have them.

use crate::values::{
    bytes, changes, compares, entry, image, labels, names, optional, text, writes,
};
use gz_label::{Blob, Changes, Entry, Image, LabelSet, Name, NoMemory, Writes};
use gz_wire::{Compares, Msg, Names};
use serde_json::Value;
use std::alloc::Global;

/// Fields, one after another.
#[derive(Drop)]
struct Fields {
    alloc: Global,
    values: Vec<Value>,
}

impl Fields {
    fn number(&mut self, n: u64) -> Result<(), NoMemory> {
        self.values.push(Value::from(n))?;
        Ok(())
    }

    fn numbers(&mut self, ns: &[u64]) -> Result<(), NoMemory> {
        for n in ns {
            self.values.push(Value::from(*n))?;
        }
        Ok(())
    }

    fn optional(&mut self, n: Option<u64>) -> Result<(), NoMemory> {
        self.values.push(optional(n))?;
        Ok(())
    }

    fn text(&mut self, name: &Name) -> Result<(), NoMemory> {
        self.values.push(text(self.alloc, name)?)?;
        Ok(())
    }

    fn bytes(&mut self, content: &Blob) -> Result<(), NoMemory> {
        self.values.push(bytes(self.alloc, content)?)?;
        Ok(())
    }

    fn labels(&mut self, set: &LabelSet) -> Result<(), NoMemory> {
        self.values.push(labels(self.alloc, set.as_slice())?)?;
        Ok(())
    }

    fn names(&mut self, list: &Names) -> Result<(), NoMemory> {
        self.values.push(names(self.alloc, list.as_slice())?)?;
        Ok(())
    }

    fn entry(&mut self, one: &Entry) -> Result<(), NoMemory> {
        self.values.push(entry(self.alloc, one)?)?;
        Ok(())
    }

    fn image(&mut self, one: &Image) -> Result<(), NoMemory> {
        self.values.push(image(self.alloc, one)?)?;
        Ok(())
    }

    fn compares(&mut self, list: &Compares) -> Result<(), NoMemory> {
        self.values.push(compares(self.alloc, list.as_slice())?)?;
        Ok(())
    }

    fn changes(&mut self, list: &Changes) -> Result<(), NoMemory> {
        self.values.push(changes(self.alloc, list.as_slice())?)?;
        Ok(())
    }

    fn writes(&mut self, list: &Writes) -> Result<(), NoMemory> {
        self.values.push(writes(self.alloc, list.as_slice())?)?;
        Ok(())
    }
}

/// Adds the fields of the key space's messages.
fn add_space(fields: &mut Fields, msg: &Msg) -> Result<(), NoMemory> {
    match msg {
        Msg::KsTxn {
            req,
            compares,
            writes,
        } => {
            fields.number(*req)?;
            fields.compares(compares)?;
            fields.writes(writes)
        }
        Msg::KsTxnOk { req, revision } => { fields.numbers(&[*req, *revision]) }
        Msg::KsTxnNo {
            req,
            status,
            key,
            revision,
        } => {
            fields.numbers(&[*req, *status])?;
            fields.text(key)?;
            fields.number(*revision)
        }
        Msg::KsSince { req, after } => { fields.numbers(&[*req, *after]) }
        Msg::KsSinceDone { req, head, changes } => {
            fields.numbers(&[*req, *head])?;
            fields.changes(changes)
        }
        Msg::KsChange { revision, writes } => {
            fields.number(*revision)?;
            fields.writes(writes)
        }
        Msg::KsGrant { req, key, value } => {
            fields.number(*req)?;
            fields.text(key)?;
            fields.bytes(value)
        }
        Msg::KsGranted { req, lease } => { fields.numbers(&[*req, *lease]) }
        _ => Ok(()),
    }
}

/// Adds the fields of messages between the members of a route.
fn add_members(fields: &mut Fields, msg: &Msg) -> Result<(), NoMemory> {
    match msg {
        Msg::Promise { journal, epoch } => {
            fields.text(journal)?;
            fields.number(*epoch)
        }
        Msg::Promised {
            journal,
            epoch,
            adopted,
            image,
        } => {
            fields.text(journal)?;
            fields.numbers(&[*epoch, *adopted])?;
            fields.image(image)
        }
        Msg::Adopt {
            journal,
            epoch,
            image,
        } => {
            fields.text(journal)?;
            fields.number(*epoch)?;
            fields.image(image)
        }
        Msg::Adopted {
            journal,
            epoch,
            end,
        } => {
            fields.text(journal)?;
            fields.numbers(&[*epoch, *end])
        }
        Msg::Refuse {
            journal,
            epoch,
            code,
            value,
        } => {
            fields.text(journal)?;
            fields.numbers(&[*epoch, *code, *value])
        }
        Msg::Replicate {
            journal,
            epoch,
            offset,
            entry,
            head,
        } => {
            fields.text(journal)?;
            fields.numbers(&[*epoch, *offset])?;
            fields.entry(entry)?;
            fields.number(*head)
        }
        Msg::Held {
            journal,
            epoch,
            end,
        } => {
            fields.text(journal)?;
            fields.numbers(&[*epoch, *end])
        }
        Msg::Head {
            journal,
            epoch,
            head,
            begin,
        } => {
            fields.text(journal)?;
            fields.numbers(&[*epoch, *head, *begin])
        }
        _ => Ok(()),
    }
}

/// Adds the fields of messages of clients and of the store.
fn add_store(fields: &mut Fields, msg: &Msg) -> Result<(), NoMemory> {
    match msg {
        Msg::Append {
            req,
            journal,
            epoch,
            offset,
            selector,
            take,
            add,
            content,
        } => {
            fields.number(*req)?;
            fields.text(journal)?;
            fields.optional(*epoch)?;
            fields.optional(*offset)?;
            fields.text(selector)?;
            fields.labels(take)?;
            fields.labels(add)?;
            fields.bytes(content)
        }
        Msg::AppendDone {
            req,
            journal,
            status,
            begin,
            end,
            value,
            labels,
            route,
        } => {
            fields.number(*req)?;
            fields.text(journal)?;
            fields.numbers(&[*status, *begin, *end, *value])?;
            fields.labels(labels)?;
            fields.names(route)
        }
        Msg::Read {
            req,
            journal,
            offset,
        } => {
            fields.number(*req)?;
            fields.text(journal)?;
            fields.number(*offset)
        }
        Msg::ReadDone {
            req,
            journal,
            status,
            offset,
            content,
            head,
            route,
        } => {
            fields.number(*req)?;
            fields.text(journal)?;
            fields.numbers(&[*status, *offset])?;
            fields.bytes(content)?;
            fields.number(*head)?;
            fields.names(route)
        }
        Msg::StorePut {
            req,
            journal,
            begin,
            end,
            content,
        } => {
            fields.number(*req)?;
            fields.text(journal)?;
            fields.numbers(&[*begin, *end])?;
            fields.bytes(content)
        }
        Msg::StoreDone {
            req,
            journal,
            begin,
            end,
        } => {
            fields.number(*req)?;
            fields.text(journal)?;
            fields.numbers(&[*begin, *end])
        }
        Msg::StoreGet {
            req,
            journal,
            offset,
        } => {
            fields.number(*req)?;
            fields.text(journal)?;
            fields.number(*offset)
        }
        Msg::StoreGot {
            req,
            journal,
            status,
            offset,
            content,
        } => {
            fields.number(*req)?;
            fields.text(journal)?;
            fields.numbers(&[*status, *offset])?;
            fields.bytes(content)
        }
        Msg::StoreList { req, journal } => {
            fields.number(*req)?;
            fields.text(journal)
        }
        Msg::StoreNames {
            req,
            journal,
            names,
        } => {
            fields.number(*req)?;
            fields.text(journal)?;
            fields.names(names)
        }
        _ => Ok(()),
    }
}

/// The fields of the message, in the order of the table.
pub fn fields_of(alloc: Global, msg: &Msg) -> Result<Vec<Value>, NoMemory> {
    let mut fields = Fields {
        alloc,
        values: Vec::new(alloc),
    };
    add_space(&mut fields, msg)?;
    add_members(&mut fields, msg)?;
    add_store(&mut fields, msg)?;
    Ok(fields.values)
}
