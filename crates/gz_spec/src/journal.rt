//! A journal's specification as JSON.
ghost use Rattle.std.specs.Prelude.{◌≡◌, ◌++◌, ◌∷◌, [], IfOk, IsTrue, codes};
ghost use Rattle.serde_json.specs.View.{view};
ghost use Rattle.serde_json.specs.Find.{get};
ghost use Rattle.gz_fields.specs.Paths.{below};
ghost use Rattle.gz_fields.specs.Outcomes.{Gives};
ghost use Rattle.gz_fields.specs.Names.{is_journal_name};
ghost use Rattle.gz_spec.specs.Valid.{is_journal};
ghost use Rattle.gz_spec.specs.Journals.{fragment_in, fragment_at, codec_if, journal_with, journal_at, journal_of, next_journal};

use crate::labels::read_labels;
use gz_fields::{
    FieldError, Range, parse, path_below, read_journal_name, read_number_or, refuse_unknown,
    use_name,
};
use gz_label::{Blob, LabelSet, Name, NoMemory};
use indexmap::IndexSet;
use serde_json::Value;
use std::alloc::Global;
use std::marker::Model;

/// How many brokers hold a journal.
const REPLICATION: Range = Range { least: 1, most: 5 };

/// The bytes of a fragment.
const FRAGMENT: Range = Range {
    least: 1,
    most: 1_073_741_824,
};

/// The bytes of a fragment, where nothing else is said.
const DEFAULT_FRAGMENT: u64 = 67_108_864;

/// A journal. Whatever is of this type is valid.
#[derive(Debug, Drop)]
pub struct JournalSpec {
    /// Segments of letters, digits, `_`, `.` and `-` with a `/` between each two, of at most 255 bytes
    /// in all.
    pub name: Name,
    /// How many brokers hold it, from 1 to 5.
    pub replication: u64,
    pub labels: LabelSet,
    /// The bytes of a fragment, from 1 to 1,073,741,824.
    pub fragment_length: u64,
}

impl Model for JournalSpec {
    ghost use Rattle.std.specs.Prelude.{IsTrue};
    ghost use Rattle.gz_spec.specs.Records.{JournalSpec as Seen};
    ghost use Rattle.gz_spec.specs.Valid.{is_journal};

    ghost Value = { Seen };

    ghost view = { λ a. record { name = a.name; replication = a.replication; labels = a.labels; fragment_length = a.fragment_length } };

    ghost invariant = { λ a. IsTrue (is_journal (record { name = a.name; replication = a.replication; labels = a.labels; fragment_length = a.fragment_length })) };
}

impl JournalSpec {
    /// An equal value.
    pub fn copy(&self) -> Result<JournalSpec, NoMemory>
        ensures { IfOk result (λ journal. journal ≡ self.now) }
    {
        Ok(JournalSpec {
            name: self.name.copy()?,
            replication: self.replication,
            labels: self.labels.copy()?,
            fragment_length: self.fragment_length,
        })
    }
}

/// Refuses fragments that are to be compressed.
fn refuse_codec(alloc: Global, path: &Blob, fragment: &Value) -> Result<(), FieldError>
    ensures { Gives
        (λ u. u) result
        (codec_if (below path.now (codes "compression_codec"))
        (get (codes "compression_codec") (view fragment.now))) }
{
    let Some(codec) = fragment.get("compression_codec") else {
        return Ok(());
    };
    let place = path_below(alloc, path, "compression_codec")?;
    match codec.as_str() {
        None => Err(FieldError::BadField { path: place }),
        Some(text) => {
            if text == "NONE" {
                Ok(())
            } else {
                Err(FieldError::Unsupported { path: place })
            }
        }
    }
}

#[tactic(auto, unfolding(crate::specs::Journals::fragment_in))]
fn read_fragment_in(alloc: Global, path: &Blob, fragment: &Value) -> Result<u64, FieldError>
    ensures { Gives (λ n. n) result (fragment_in path.now (view fragment.now)) }
{
    refuse_unknown(alloc, path, fragment, &["length", "compression_codec"])?;
    let bytes = read_number_or(alloc, path, fragment, "length", DEFAULT_FRAGMENT, FRAGMENT)?;
    refuse_codec(alloc, path, fragment)?;
    Ok(bytes)
}

fn read_fragment(alloc: Global, path: &Blob, value: &Value) -> Result<u64, FieldError>
    ensures { Gives (λ n. n) result (fragment_at path.now (view value.now)) }
{
    let Some(fragment) = value.get("fragment") else {
        return Ok(DEFAULT_FRAGMENT);
    };
    let place = path_below(alloc, path, "fragment")?;
    let bytes = read_fragment_in(alloc, &place, fragment)?;
    Ok(bytes)
}

/// The journal of this name, by what follows the name.
#[tactic(auto, unfolding(crate::specs::Journals::journal_with))]
fn read_rest(
    alloc: Global,
    path: &Blob,
    name: Name,
    value: &Value,
) -> Result<JournalSpec, FieldError>
    requires { IsTrue (is_journal_name name) }
    ensures gives { Gives (λ j. j) result (journal_with path.now name (view value.now)) }
    ensures named { IfOk result (λ j. j.name ≡ name) }
{
    let replication = read_number_or(alloc, path, value, "replication", 1, REPLICATION)?;
    let labels = read_labels(alloc, path, value)?;
    let fragment_length = read_fragment(alloc, path, value)?;
    Ok(JournalSpec {
        name,
        replication,
        labels,
        fragment_length,
    })
}

#[tactic(auto, unfolding(crate::specs::Journals::journal_at))]
fn read_journal_at(alloc: Global, path: &Blob, value: &Value) -> Result<JournalSpec, FieldError>
    ensures { Gives (λ j. j) result (journal_at path.now (view value.now)) }
{
    refuse_unknown(
        alloc,
        path,
        value,
        &["name", "replication", "labels", "fragment"],
    )?;
    let name = read_journal_name(alloc, path, value, "name")?;
    let journal = read_rest(alloc, path, name, value)?;
    Ok(journal)
}

/// The journal in a list, behind journals of the used names, to which its name is added.
#[tactic(auto, unfolding(crate::specs::Journals::next_journal))]
pub fn read_next_journal(
    alloc: Global,
    path: &Blob,
    used: &mut IndexSet<Name>,
    value: &Value,
) -> Result<JournalSpec, FieldError>
    ensures gives { Gives (λ j. j) result (next_journal path.now used.old.keys (view value.now)) }
    ensures noted { IfOk result (λ j. used.new.keys ≡ used.old.keys ++ j.name ∷ []) }
{
    refuse_unknown(
        alloc,
        path,
        value,
        &["name", "replication", "labels", "fragment"],
    )?;
    let name = read_journal_name(alloc, path, value, "name")?;
    let place = path_below(alloc, path, "name")?;
    use_name(used, place, &name)?;
    let journal = read_rest(alloc, path, name, value)?;
    Ok(journal)
}

/// The journal that the text is, by itself. Paths begin at the journal. What is read is printed and read back
/// the same.
#[tactic(auto, unfolding(crate::specs::Journals::journal_of))]
pub fn read_journal(alloc: Global, bytes: &[u8]) -> Result<JournalSpec, FieldError>
    ensures gives { Gives (λ j. j) result (journal_of bytes.now) }
    ensures valid { IfOk result (λ j. IsTrue (is_journal j)) }
{
    let value = parse(alloc, bytes)?;
    let journal = read_journal_at(alloc, &Blob::new(alloc), &value)?;
    Ok(journal)
}
