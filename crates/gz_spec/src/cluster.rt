//! The specifications of a cluster as JSON: four lists.
ghost use Rattle.std.specs.Prelude.{◌≡◌, ◌++◌, ◌+◌, [], map, IfOk, IsTrue};
ghost use Rattle.serde_json.specs.View.{view, items_view};
ghost use Rattle.gz_fields.specs.Outcomes.{Gives};
ghost use Rattle.gz_fields.specs.Lists.{count, no_more_than, each};
ghost use Rattle.gz_spec.specs.Limits.{max_members};
ghost use Rattle.gz_spec.specs.Journals.{next_journal};
ghost use Rattle.gz_spec.specs.Shards.{next_shard};
ghost use Rattle.gz_spec.specs.Members.{next_member};
ghost use Rattle.gz_spec.specs.Specs.{name_of_journal, id_of_shard, id_of_member, journals_in, shards_in, members_in, part_in, part_of};
ghost use Rattle.gz_spec.specs.Valid.{are_journals, are_shards, are_specs};

use crate::journal::{JournalSpec, read_next_journal};
use crate::member::{MemberSpec, read_next_member};
use crate::shard::{ShardSpec, read_next_shard};
use gz_fields::{FieldError, parse, path_of_item, read_items_or_none, refuse_long, refuse_unknown};
use gz_label::{Blob, Name, NoMemory};
use indexmap::IndexSet;
use serde_json::Value;
use std::alloc::Global;
use std::marker::Model;

/// The most journals.
pub const MAX_JOURNALS: usize = 1024;

/// The most shards.
pub const MAX_SHARDS: usize = 256;

/// The most members, brokers and consumers together.
pub const MAX_MEMBERS: usize = 64;

/// Journals, which a contract sees as their list.
#[derive(Debug, Drop)]
pub struct Journals {
    journals: Vec<JournalSpec>,
}

impl Model for Journals {
    ghost use Rattle.std.specs.Prelude.{List};
    ghost use Rattle.gz_spec.specs.Records.{JournalSpec};

    ghost Value = { List JournalSpec };

    ghost view = { λ a. a.journals.items };
}

fn copy_journals(alloc: Global, journals: &[JournalSpec]) -> Result<Vec<JournalSpec>, NoMemory>
    ensures { IfOk result (λ copied. copied.items ≡ journals.now) }
{
    let mut copied = Vec::new(alloc);
    for journal in journals {
        let one = journal.copy()?;
        copied.push(one)?;
    }
    Ok(copied)
}

impl Journals {
    /// The same journals. It takes no memory.
    pub fn of(journals: Vec<JournalSpec>) -> Journals
        ensures { result ≡ journals.items }
    {
        Journals { journals }
    }

    /// Gives the journals back as a vector. It takes no memory.
    pub fn into_vec(self) -> Vec<JournalSpec>
        ensures { result.items ≡ self }
    {
        self.journals
    }

    /// The journals. It takes no memory.
    pub fn as_slice(&self) -> &[JournalSpec]
        ensures { result.now ≡ self.now }
    {
        self.journals.as_slice()
    }

    /// An equal value.
    pub fn copy(&self) -> Result<Journals, NoMemory>
        ensures { IfOk result (λ journals. journals ≡ self.now) }
    {
        let journals = copy_journals(*self.journals.allocator(), self.journals.as_slice())?;
        Ok(Journals { journals })
    }
}

/// Shards, which a contract sees as their list.
#[derive(Debug, Drop)]
pub struct Shards {
    shards: Vec<ShardSpec>,
}

impl Model for Shards {
    ghost use Rattle.std.specs.Prelude.{List};
    ghost use Rattle.gz_spec.specs.Records.{ShardSpec};

    ghost Value = { List ShardSpec };

    ghost view = { λ a. a.shards.items };
}

fn copy_shards(alloc: Global, shards: &[ShardSpec]) -> Result<Vec<ShardSpec>, NoMemory>
    ensures { IfOk result (λ copied. copied.items ≡ shards.now) }
{
    let mut copied = Vec::new(alloc);
    for shard in shards {
        let one = shard.copy()?;
        copied.push(one)?;
    }
    Ok(copied)
}

impl Shards {
    /// The same shards. It takes no memory.
    pub fn of(shards: Vec<ShardSpec>) -> Shards
        ensures { result ≡ shards.items }
    {
        Shards { shards }
    }

    /// Gives the shards back as a vector. It takes no memory.
    pub fn into_vec(self) -> Vec<ShardSpec>
        ensures { result.items ≡ self }
    {
        self.shards
    }

    /// The shards. It takes no memory.
    pub fn as_slice(&self) -> &[ShardSpec]
        ensures { result.now ≡ self.now }
    {
        self.shards.as_slice()
    }

    /// An equal value.
    pub fn copy(&self) -> Result<Shards, NoMemory>
        ensures { IfOk result (λ shards. shards ≡ self.now) }
    {
        let shards = copy_shards(*self.shards.allocator(), self.shards.as_slice())?;
        Ok(Shards { shards })
    }
}

/// Members, which a contract sees as their list.
#[derive(Debug, Drop)]
pub struct Members {
    members: Vec<MemberSpec>,
}

impl Model for Members {
    ghost use Rattle.std.specs.Prelude.{List};
    ghost use Rattle.gz_spec.specs.Records.{MemberSpec};

    ghost Value = { List MemberSpec };

    ghost view = { λ a. a.members.items };
}

fn copy_members(alloc: Global, members: &[MemberSpec]) -> Result<Vec<MemberSpec>, NoMemory>
    ensures { IfOk result (λ copied. copied.items ≡ members.now) }
{
    let mut copied = Vec::new(alloc);
    for member in members {
        let one = member.copy()?;
        copied.push(one)?;
    }
    Ok(copied)
}

impl Members {
    /// The same members. It takes no memory.
    pub fn of(members: Vec<MemberSpec>) -> Members
        ensures { result ≡ members.items }
    {
        Members { members }
    }

    /// Gives the members back as a vector. It takes no memory.
    pub fn into_vec(self) -> Vec<MemberSpec>
        ensures { result.items ≡ self }
    {
        self.members
    }

    /// The members. It takes no memory.
    pub fn as_slice(&self) -> &[MemberSpec]
        ensures { result.now ≡ self.now }
    {
        self.members.as_slice()
    }

    /// An equal value.
    pub fn copy(&self) -> Result<Members, NoMemory>
        ensures { IfOk result (λ members. members ≡ self.now) }
    {
        let members = copy_members(*self.members.allocator(), self.members.as_slice())?;
        Ok(Members { members })
    }
}

/// The journals, shards and members of a cluster, each list in the order in which it was given. Whatever is of this
/// type is valid: whether each journal that a shard names is there, and whether shards reach themselves, is all that
/// is left to ask.
#[derive(Debug, Drop)]
pub struct Specs {
    /// At most 1,024, no two of one name.
    pub journals: Journals,
    /// At most 256, no two of one id.
    pub shards: Shards,
    /// With the consumers at most 64, no two of one id, and none reserved.
    pub brokers: Members,
    pub consumers: Members,
}

impl Model for Specs {
    ghost use Rattle.std.specs.Prelude.{IsTrue};
    ghost use Rattle.gz_spec.specs.Records.{Specs as Seen};
    ghost use Rattle.gz_spec.specs.Valid.{are_specs};

    ghost Value = { Seen };

    ghost view = { λ a. record { journals = a.journals; shards = a.shards; brokers = a.brokers; consumers = a.consumers } };

    ghost invariant = { λ a. IsTrue (are_specs (record { journals = a.journals; shards = a.shards; brokers = a.brokers; consumers = a.consumers })) };
}

fn read_each_journal(alloc: Global, path: &Blob, values: &[Value]) -> Result<Journals, FieldError>
    ensures { Gives
        (λ js. js) result
        (each next_journal name_of_journal path.now 0 [] (items_view values.now)) }
{
    let mut used = IndexSet::new(alloc);
    let mut journals = Vec::new(alloc);
    for (i, value) in values.iter().enumerate() {
        let place = path_of_item(alloc, path, i)?;
        let journal = read_next_journal(alloc, &place, &mut used, value)?;
        journals.push(journal)?;
    }
    Ok(Journals { journals })
}

/// The journals of the object's member `journals`, and none where it is absent.
#[tactic(auto, unfolding(crate::specs::Specs::journals_in))]
pub fn read_journals(alloc: Global, value: &Value) -> Result<Journals, FieldError>
    ensures gives { Gives (λ js. js) result (journals_in (view value.now)) }
    ensures valid { IfOk result (λ js. IsTrue (are_journals js)) }
{
    let values = read_items_or_none(alloc, &Blob::new(alloc), value, "journals")?;
    let path = Blob::of(alloc, b"journals")?;
    refuse_long(&path, values, MAX_JOURNALS)?;
    let journals = read_each_journal(alloc, &path, values)?;
    Ok(journals)
}

fn read_each_shard(alloc: Global, path: &Blob, values: &[Value]) -> Result<Shards, FieldError>
    ensures { Gives
        (λ ss. ss) result (each next_shard id_of_shard path.now 0 [] (items_view values.now)) }
{
    let mut used = IndexSet::new(alloc);
    let mut shards = Vec::new(alloc);
    for (i, value) in values.iter().enumerate() {
        let place = path_of_item(alloc, path, i)?;
        let shard = read_next_shard(alloc, &place, &mut used, value)?;
        shards.push(shard)?;
    }
    Ok(Shards { shards })
}

/// The shards of the object's member `shards`, and none where it is absent. Whether the journals that they
/// name are there isn't asked.
#[tactic(auto, unfolding(crate::specs::Specs::shards_in))]
pub fn read_shards(alloc: Global, value: &Value) -> Result<Shards, FieldError>
    ensures gives { Gives (λ ss. ss) result (shards_in (view value.now)) }
    ensures valid { IfOk result (λ ss. IsTrue (are_shards ss)) }
{
    let values = read_items_or_none(alloc, &Blob::new(alloc), value, "shards")?;
    let path = Blob::of(alloc, b"shards")?;
    refuse_long(&path, values, MAX_SHARDS)?;
    let shards = read_each_shard(alloc, &path, values)?;
    Ok(shards)
}

/// The members of the list, behind members of the used ids, to which theirs are added.
fn read_each_member(
    alloc: Global,
    path: &Blob,
    used: &mut IndexSet<Name>,
    values: &[Value],
) -> Result<Members, FieldError>
    ensures gives { Gives
        (λ ms. ms) result
        (each next_member id_of_member path.now 0 used.old.keys (items_view values.now)) }
    ensures noted { IfOk result (λ ms. used.new.keys ≡ used.old.keys ++ map id_of_member ms) }
{
    let mut members = Vec::new(alloc);
    for (i, value) in values.iter().enumerate() {
        let place = path_of_item(alloc, path, i)?;
        let member = read_next_member(alloc, &place, used, value)?;
        members.push(member)?;
    }
    Ok(Members { members })
}

/// Refuses a list of members that has too many with those of the used ids.
#[tactic(auto, using(gz_fields::proofs::Counts::count_view))]
fn refuse_crowd(path: &Blob, used: usize, values: &[Value]) -> Result<(), FieldError>
    ensures { Gives
        (λ u. u) result (no_more_than max_members path.now (used + count (items_view values.now))) }
{
    if used > MAX_MEMBERS || values.len() > MAX_MEMBERS - used {
        return Err(FieldError::BadNumber { path: path.copy()? });
    }
    Ok(())
}

/// The members of the list of this name, behind members of the used ids, to which theirs are added.
#[tactic(auto, unfolding(crate::specs::Specs::members_in))]
fn read_members(
    alloc: Global,
    name: &str,
    used: &mut IndexSet<Name>,
    value: &Value,
) -> Result<Members, FieldError>
    ensures gives { Gives (λ ms. ms) result (members_in name.now used.old.keys (view value.now)) }
    ensures noted { IfOk result (λ ms. used.new.keys ≡ used.old.keys ++ map id_of_member ms) }
{
    let values = read_items_or_none(alloc, &Blob::new(alloc), value, name)?;
    let path = Blob::of(alloc, name.as_bytes())?;
    refuse_crowd(&path, used.len(), values)?;
    let members = read_each_member(alloc, &path, used, values)?;
    Ok(members)
}

#[tactic(auto, unfolding(crate::specs::Specs::part_in))]
fn read_part_in(alloc: Global, value: &Value) -> Result<Specs, FieldError>
    ensures { Gives (λ s. s) result (part_in (view value.now)) }
{
    let top = Blob::new(alloc);
    refuse_unknown(
        alloc,
        &top,
        value,
        &["do", "journals", "shards", "brokers", "consumers"],
    )?;
    let journals = read_journals(alloc, value)?;
    let shards = read_shards(alloc, value)?;
    let mut used = IndexSet::new(alloc);
    let brokers = read_members(alloc, "brokers", &mut used, value)?;
    let consumers = read_members(alloc, "consumers", &mut used, value)?;
    Ok(Specs {
        journals,
        shards,
        brokers,
        consumers,
    })
}

/// The four lists that the text says, each by itself: whether the journals that the shards name are
/// there isn't asked. A member `do` of the outermost object is passed over. What is read is printed and read
/// back the same.
#[tactic(auto, unfolding(crate::specs::Specs::part_of))]
pub fn read_part(alloc: Global, bytes: &[u8]) -> Result<Specs, FieldError>
    ensures gives { Gives (λ s. s) result (part_of bytes.now) }
    ensures valid { IfOk result (λ s. IsTrue (are_specs s)) }
{
    let value = parse(alloc, bytes)?;
    let specs = read_part_in(alloc, &value)?;
    Ok(specs)
}

impl Specs {
    /// An equal value.
    pub fn copy(&self) -> Result<Specs, NoMemory>
        ensures { IfOk result (λ specs. specs ≡ self.now) }
    {
        Ok(Specs {
            journals: self.journals.copy()?,
            shards: self.shards.copy()?,
            brokers: self.brokers.copy()?,
            consumers: self.consumers.copy()?,
        })
    }
}
