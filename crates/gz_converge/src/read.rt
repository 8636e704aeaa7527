//! Reads what the rows of a key space say.
ghost use Rattle.std.specs.Prelude.{◌≡◌, ◌+◌, ◌≤◌, ◌++◌, length, map, filter_map, option_map, IfOk};
ghost use Rattle.std.specs.Result.{result_ok};
ghost use Rattle.gz_keyspace.specs.Formats.{id_of, joined_of};
ghost use Rattle.gz_spec.specs.Journals.{journal_of};
ghost use Rattle.gz_spec.specs.Shards.{shard_of};
ghost use Rattle.gz_converge.specs.Views.{row_of, behind, journal_named, shard_named, list_at, sync_at, route_key, sync_key, assign_key, journal_with, shard_with, member_at, journal_in, shard_in, member_in};

use crate::view::{JournalView, Listed, MemberView, ShardView, Synced};
use gz_fields::{FieldError, is_id};
use gz_keyspace::{Mirror, read_ids, read_joined, read_sync};
use gz_label::{Blob, LabelError, Name, NoMemory};
use gz_spec::{JournalSpec, ShardSpec, read_journal, read_shard};
use std::alloc::Global;

/// A key with its value and the revision of the change that put it.
pub type Row<'a> = (&'a Name, &'a Blob, u64);

/// The rows of the key space, in the order of their keys.
pub fn rows_of(alloc: Global, keys: &Mirror) -> Result<Vec<Row<'_>>, NoMemory>
    ensures { IfOk result
        (λ rows. map (λ row. row_of row.0.now row.1.now row.2) rows.items ≡ keys.now.keys) }
{
    let mut rows = Vec::new(alloc);
    while let Some(row) = keys.nth(rows.len()) {
        rows.push(row)?;
    }
    Ok(rows)
}

// What stands behind the word that the key begins with.
fn behind<'a>(word: &[u8], key: &'a Name) -> Option<&'a [u8]>
    ensures { option_map (λ rest. rest.now) result ≡ behind word.now key.now }
{
    key.as_slice().strip_prefix(word)
}

// The key of this word and this name.
fn key_of(alloc: Global, word: &str, name: &Name) -> Result<Name, NoMemory>
    requires { length word.now + length name.now ≤ 1024 }
    ensures { IfOk result (λ key. key ≡ word.now ++ name.now) }
{
    let mut text = String::from_str(alloc, word)?;
    text.push_str(name.as_str())?;
    let key = Name::of(alloc, text.as_str())?;
    Ok(key)
}

/// The key of a journal's route.
pub fn route_key(alloc: Global, journal: &JournalSpec) -> Result<Name, NoMemory>
    ensures { IfOk result (λ key. key ≡ route_key journal.now.name) }
{
    let key = key_of(alloc, "route/", &journal.name)?;
    Ok(key)
}

// The key of a journal's opened epoch.
fn sync_key(alloc: Global, journal: &JournalSpec) -> Result<Name, NoMemory>
    ensures { IfOk result (λ key. key ≡ sync_key journal.now.name) }
{
    let key = key_of(alloc, "sync/", &journal.name)?;
    Ok(key)
}

/// The key of a shard's list.
pub fn assign_key(alloc: Global, shard: &ShardSpec) -> Result<Name, NoMemory>
    ensures { IfOk result (λ key. key ≡ assign_key shard.now.id) }
{
    let key = key_of(alloc, "assign/", &shard.id)?;
    Ok(key)
}

// The list at the key.
fn list_at(alloc: Global, keys: &Mirror, key: &Name) -> Result<Option<Listed>, NoMemory>
    ensures { IfOk result (λ list. list ≡ list_at keys.now.keys key.now) }
{
    let Some((value, revision)) = keys.get(key) else {
        return Ok(None);
    };
    let Some(ids) = read_ids(alloc, value.as_slice())? else {
        return Ok(None);
    };
    Ok(Some(Listed { ids, revision }))
}

// The epoch at the key.
fn sync_at(keys: &Mirror, key: &Name) -> Option<Synced>
    ensures { result ≡ sync_at keys.now.keys key.now }
{
    let (value, revision) = keys.get(key)?;
    let epoch = read_sync(value.as_slice())?;
    Some(Synced { epoch, revision })
}

// The specification of a journal that the value is.
fn read_journal_spec(alloc: Global, value: &[u8]) -> Result<Option<JournalSpec>, NoMemory>
    ensures { IfOk result (λ spec. spec ≡ result_ok (journal_of value.now)) }
{
    match read_journal(alloc, value) {
        Ok(spec) => Ok(Some(spec)),
        Err(FieldError::NoMemory) => Err(NoMemory),
        Err(_) => Ok(None),
    }
}

// The specification of the journal of this name that the value is.
fn read_journal_named(
    alloc: Global,
    name: &[u8],
    value: &[u8],
) -> Result<Option<JournalSpec>, NoMemory>
    ensures { IfOk result (λ spec. spec ≡ journal_named name.now value.now) }
{
    let Some(spec) = read_journal_spec(alloc, value)? else {
        return Ok(None);
    };
    if spec.name.as_slice() != name {
        return Ok(None);
    }
    Ok(Some(spec))
}

// The specification of a shard that the value is.
fn read_shard_spec(alloc: Global, value: &[u8]) -> Result<Option<ShardSpec>, NoMemory>
    ensures { IfOk result (λ spec. spec ≡ result_ok (shard_of value.now)) }
{
    match read_shard(alloc, value) {
        Ok(spec) => Ok(Some(spec)),
        Err(FieldError::NoMemory) => Err(NoMemory),
        Err(_) => Ok(None),
    }
}

// The specification of the shard of this id that the value is.
fn read_shard_named(alloc: Global, id: &[u8], value: &[u8]) -> Result<Option<ShardSpec>, NoMemory>
    ensures { IfOk result (λ spec. spec ≡ shard_named id.now value.now) }
{
    let Some(spec) = read_shard_spec(alloc, value)? else {
        return Ok(None);
    };
    if spec.id.as_slice() != id {
        return Ok(None);
    }
    Ok(Some(spec))
}

// The journal's route.
fn route_of(alloc: Global, keys: &Mirror, spec: &JournalSpec) -> Result<Option<Listed>, NoMemory>
    ensures { IfOk result (λ route. route ≡ list_at keys.now.keys (route_key spec.now.name)) }
{
    let key = route_key(alloc, spec)?;
    let route = list_at(alloc, keys, &key)?;
    Ok(route)
}

// The journal's sync key.
fn sync_of(alloc: Global, keys: &Mirror, spec: &JournalSpec) -> Result<Option<Synced>, NoMemory>
    ensures { IfOk result (λ sync. sync ≡ sync_at keys.now.keys (sync_key spec.now.name)) }
{
    let key = sync_key(alloc, spec)?;
    Ok(sync_at(keys, &key))
}

// The shard's list of consumers.
fn list_of(alloc: Global, keys: &Mirror, spec: &ShardSpec) -> Result<Option<Listed>, NoMemory>
    ensures { IfOk result (λ list. list ≡ list_at keys.now.keys (assign_key spec.now.id)) }
{
    let key = assign_key(alloc, spec)?;
    let list = list_at(alloc, keys, &key)?;
    Ok(list)
}

// The journal of this specification, with its route and its sync key.
fn journal_with(
    alloc: Global,
    keys: &Mirror,
    revision: u64,
    spec: JournalSpec,
) -> Result<JournalView, NoMemory>
    ensures { IfOk result (λ journal. journal ≡ journal_with keys.now.keys revision spec) }
{
    let route = route_of(alloc, keys, &spec)?;
    let sync = sync_of(alloc, keys, &spec)?;
    Ok(JournalView {
        spec,
        revision,
        route,
        sync,
    })
}

// The shard of this specification, with its list.
fn shard_with(
    alloc: Global,
    keys: &Mirror,
    revision: u64,
    spec: ShardSpec,
) -> Result<ShardView, NoMemory>
    ensures { IfOk result (λ shard. shard ≡ shard_with keys.now.keys revision spec) }
{
    let list = list_of(alloc, keys, &spec)?;
    Ok(ShardView {
        spec,
        revision,
        list,
    })
}

// What the row says of a journal.
fn journal_in(
    alloc: Global,
    keys: &Mirror,
    key: &Name,
    value: &Blob,
    revision: u64,
) -> Result<Option<JournalView>, NoMemory>
    ensures { IfOk result
        (λ journal. journal ≡ journal_in keys.now.keys (row_of key.now value.now revision)) }
{
    let Some(name) = behind(b"journal/", key) else {
        return Ok(None);
    };
    let Some(spec) = read_journal_named(alloc, name, value.as_slice())? else {
        return Ok(None);
    };
    let journal = journal_with(alloc, keys, revision, spec)?;
    Ok(Some(journal))
}

// What the row says of a shard.
fn shard_in(
    alloc: Global,
    keys: &Mirror,
    key: &Name,
    value: &Blob,
    revision: u64,
) -> Result<Option<ShardView>, NoMemory>
    ensures { IfOk result
        (λ shard. shard ≡ shard_in keys.now.keys (row_of key.now value.now revision)) }
{
    let Some(id) = behind(b"shard/", key) else {
        return Ok(None);
    };
    let Some(spec) = read_shard_named(alloc, id, value.as_slice())? else {
        return Ok(None);
    };
    let shard = shard_with(alloc, keys, revision, spec)?;
    Ok(Some(shard))
}

// The id that the text is.
#[tactic(auto, using(gz_keyspace::proofs::IdLemmas::name_of_id))]
fn read_id(alloc: Global, text: &[u8]) -> Result<Option<Name>, NoMemory>
    ensures { IfOk result (λ id. id ≡ id_of text.now) }
{
    if !is_id(text) {
        return Ok(None);
    }
    match Name::read(alloc, text) {
        Ok(id) => Ok(Some(id)),
        Err(LabelError::NoMemory) => Err(NoMemory),
        Err(LabelError::BadName { .. } | LabelError::TooMany) => Ok(None),
    }
}

// The member whose key says its id and has this value.
#[tactic(auto, using(crate::proofs::Reading::no_member))]
fn member_at(
    alloc: Global,
    id: &[u8],
    value: &[u8],
    revision: u64,
) -> Result<Option<MemberView>, NoMemory>
    ensures { IfOk result
        (λ member. member
        ≡ member_at id.now (record { value = value.now; mod_revision = revision })) }
{
    let Some(id) = read_id(alloc, id)? else {
        return Ok(None);
    };
    let Some(joined) = read_joined(alloc, &id, value)? else {
        return Ok(None);
    };
    Ok(Some(MemberView { joined, revision }))
}

// What the row says of a member.
fn member_in(
    alloc: Global,
    key: &Name,
    value: &Blob,
    revision: u64,
) -> Result<Option<MemberView>, NoMemory>
    ensures { IfOk result (λ member. member ≡ member_in (row_of key.now value.now revision)) }
{
    let Some(id) = behind(b"member/", key) else {
        return Ok(None);
    };
    let member = member_at(alloc, id, value.as_slice(), revision)?;
    Ok(member)
}

/// The journals that the rows say.
pub fn journals_in(
    alloc: Global,
    keys: &Mirror,
    rows: &[Row<'_>],
) -> Result<Vec<JournalView>, NoMemory>
    ensures { IfOk result
        (λ journals.
        journals.items
        ≡ filter_map (journal_in keys.now.keys)
        (map (λ row. row_of row.0.now row.1.now row.2) rows.now)) }
{
    let mut journals = Vec::new(alloc);
    for row in rows {
        if let Some(journal) = journal_in(alloc, keys, row.0, row.1, row.2)? {
            journals.push(journal)?;
        }
    }
    Ok(journals)
}

/// The shards that the rows say.
pub fn shards_in(alloc: Global, keys: &Mirror, rows: &[Row<'_>]) -> Result<Vec<ShardView>, NoMemory>
    ensures { IfOk result
        (λ shards. shards.items
        ≡ filter_map (shard_in keys.now.keys)
        (map (λ row. row_of row.0.now row.1.now row.2) rows.now)) }
{
    let mut shards = Vec::new(alloc);
    for row in rows {
        if let Some(shard) = shard_in(alloc, keys, row.0, row.1, row.2)? {
            shards.push(shard)?;
        }
    }
    Ok(shards)
}

/// The members that the rows say.
pub fn members_in(alloc: Global, rows: &[Row<'_>]) -> Result<Vec<MemberView>, NoMemory>
    ensures { IfOk result
        (λ members. members.items
        ≡ filter_map member_in (map (λ row. row_of row.0.now row.1.now row.2) rows.now)) }
{
    let mut members = Vec::new(alloc);
    for row in rows {
        if let Some(member) = member_in(alloc, row.0, row.1, row.2)? {
            members.push(member)?;
        }
    }
    Ok(members)
}
