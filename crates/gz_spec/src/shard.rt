//! A shard's specification as JSON.
ghost use Rattle.std.specs.Prelude.{◌≡◌, ◌++◌, ◌∷◌, [], IfOk, IsTrue, codes};
ghost use Rattle.serde_json.specs.View.{view};
ghost use Rattle.gz_label.specs.Labels.{values_of};
ghost use Rattle.gz_fields.specs.Outcomes.{Gives};
ghost use Rattle.gz_fields.specs.Names.{is_id};
ghost use Rattle.gz_spec.specs.Valid.{is_shard};
ghost use Rattle.gz_spec.specs.Shards.{app_of, shard_with, shard_at, shard_of, next_shard};

use crate::app::{app_in, refuse_labels};
use crate::labels::read_labels;
use crate::reserved::read_hint_prefix;
use crate::source::{Sources, read_sources};
use gz_app::AppKind;
use gz_fields::{
    FieldError, Range, parse, path_below, read_flag_or, read_id, read_journal_name, read_number_or,
    refuse_unknown, use_name,
};
use gz_label::{Blob, LabelSet, Name, NoMemory};
use indexmap::IndexSet;
use serde_json::Value;
use std::alloc::Global;
use std::marker::Model;

/// How many backups the hints have, and how many standbys a shard has.
const UP_TO_4: Range = Range { least: 0, most: 4 };

/// The members of a shard.
const MEMBERS: [&str; 8] = [
    "id",
    "sources",
    "recovery_log_prefix",
    "hint_prefix",
    "hint_backups",
    "hot_standbys",
    "disable",
    "labels",
];

/// A shard. Whatever is of this type is valid.
#[derive(Debug, Drop)]
pub struct ShardSpec {
    /// 1 to 32 letters, digits, `_` or `-`.
    pub id: Name,
    /// 1 to 16, no two of one journal.
    pub sources: Sources,
    /// The shard's recovery log is this, `/` and its id. It is of the form of a journal's name.
    pub recovery_log_prefix: Name,
    /// An id that begins the keys of the shard's hints, and none of the words that begin the cluster's
    /// own keys.
    pub hint_prefix: Name,
    /// From 0 to 4.
    pub hint_backups: u64,
    /// From 0 to 4.
    pub hot_standbys: u64,
    pub disable: bool,
    /// One label `app` names what the shard does. Labels `output` name the journals that it writes to:
    /// 1 to 8, and none where the application is `latest`.
    pub labels: LabelSet,
}

impl Model for ShardSpec {
    ghost use Rattle.std.specs.Prelude.{IsTrue};
    ghost use Rattle.gz_spec.specs.Records.{ShardSpec as Seen};
    ghost use Rattle.gz_spec.specs.Valid.{is_shard};

    ghost Value = { Seen };

    ghost view = { λ a. record { id = a.id; sources = a.sources; recovery_log_prefix = a.recovery_log_prefix; hint_prefix = a.hint_prefix; hint_backups = a.hint_backups; hot_standbys = a.hot_standbys; disable = a.disable; labels = a.labels } };

    ghost invariant = { λ a. IsTrue (is_shard (record { id = a.id; sources = a.sources; recovery_log_prefix = a.recovery_log_prefix; hint_prefix = a.hint_prefix; hint_backups = a.hint_backups; hot_standbys = a.hot_standbys; disable = a.disable; labels = a.labels })) };
}

impl ShardSpec {
    /// What the shard does, which each shard that was read has.
    pub fn app(&self) -> Option<AppKind>
        ensures { result ≡ app_of (values_of (codes "app") self.now.labels) }
    {
        app_in(self.labels.as_slice())
    }

    /// An equal value.
    pub fn copy(&self) -> Result<ShardSpec, NoMemory>
        ensures { IfOk result (λ shard. shard ≡ self.now) }
    {
        Ok(ShardSpec {
            id: self.id.copy()?,
            sources: self.sources.copy()?,
            recovery_log_prefix: self.recovery_log_prefix.copy()?,
            hint_prefix: self.hint_prefix.copy()?,
            hint_backups: self.hint_backups,
            hot_standbys: self.hot_standbys,
            disable: self.disable,
            labels: self.labels.copy()?,
        })
    }
}

/// The shard of this id, by what follows the id.
#[tactic(auto, unfolding(crate::specs::Shards::shard_with))]
fn read_rest(alloc: Global, path: &Blob, id: Name, value: &Value) -> Result<ShardSpec, FieldError>
    requires { IsTrue (is_id id) }
    ensures gives { Gives (λ s. s) result (shard_with path.now id (view value.now)) }
    ensures named { IfOk result (λ s. s.id ≡ id) }
{
    let sources = read_sources(alloc, path, value)?;
    let recovery_log_prefix = read_journal_name(alloc, path, value, "recovery_log_prefix")?;
    let hint_prefix = read_hint_prefix(alloc, path, value, "hint_prefix")?;
    let hint_backups = read_number_or(alloc, path, value, "hint_backups", 0, UP_TO_4)?;
    let hot_standbys = read_number_or(alloc, path, value, "hot_standbys", 0, UP_TO_4)?;
    let disable = read_flag_or(alloc, path, value, "disable", false)?;
    let labels = read_labels(alloc, path, value)?;
    let place = path_below(alloc, path, "labels")?;
    refuse_labels(place, labels.as_slice())?;
    Ok(ShardSpec {
        id,
        sources,
        recovery_log_prefix,
        hint_prefix,
        hint_backups,
        hot_standbys,
        disable,
        labels,
    })
}

#[tactic(auto, unfolding(crate::specs::Shards::shard_at))]
fn read_shard_at(alloc: Global, path: &Blob, value: &Value) -> Result<ShardSpec, FieldError>
    ensures { Gives (λ s. s) result (shard_at path.now (view value.now)) }
{
    refuse_unknown(alloc, path, value, &MEMBERS)?;
    let id = read_id(alloc, path, value, "id")?;
    let shard = read_rest(alloc, path, id, value)?;
    Ok(shard)
}

/// The shard in a list, behind shards of the used ids, to which its id is added.
#[tactic(auto, unfolding(crate::specs::Shards::next_shard))]
pub fn read_next_shard(
    alloc: Global,
    path: &Blob,
    used: &mut IndexSet<Name>,
    value: &Value,
) -> Result<ShardSpec, FieldError>
    ensures gives { Gives (λ s. s) result (next_shard path.now used.old.keys (view value.now)) }
    ensures noted { IfOk result (λ s. used.new.keys ≡ used.old.keys ++ s.id ∷ []) }
{
    refuse_unknown(alloc, path, value, &MEMBERS)?;
    let id = read_id(alloc, path, value, "id")?;
    let place = path_below(alloc, path, "id")?;
    use_name(used, place, &id)?;
    let shard = read_rest(alloc, path, id, value)?;
    Ok(shard)
}

/// The shard that the text is, by itself. Paths begin at the shard. What is read is printed and read back
/// the same.
#[tactic(auto, unfolding(crate::specs::Shards::shard_of))]
pub fn read_shard(alloc: Global, bytes: &[u8]) -> Result<ShardSpec, FieldError>
    ensures gives { Gives (λ s. s) result (shard_of bytes.now) }
    ensures valid { IfOk result (λ s. IsTrue (is_shard s)) }
{
    let value = parse(alloc, bytes)?;
    let shard = read_shard_at(alloc, &Blob::new(alloc), &value)?;
    Ok(shard)
}
