//! What the values of keys say.
ghost use Rattle.std.specs.Prelude.{◌≡◌, IfOk, IsTrue, Some, map};
ghost use Rattle.gz_label.specs.Items.{parts_of};
ghost use Rattle.gz_spec.specs.Valid.{is_lone_member};
ghost use Rattle.gz_keyspace.specs.Formats.{number_of, number_after, id_of, is_in, ids_in, ids_of, words_of, is_consumer, joined_with, joined_of, kind_word, member_text};

use gz_fields::is_id;
use gz_label::{Blob, LabelError, Name, NoMemory};
use gz_spec::{MAX_LIMIT, MemberSpec};
use std::alloc::{AllocError, Global};
use std::marker::Model;

/// The ids of a list in their order, which a contract sees as the list of them.
#[derive(Debug, Drop)]
pub struct Ids {
    ids: Vec<Name>,
}

impl Model for Ids {
    ghost use Rattle.std.specs.Prelude.{List, ℕ};

    ghost Value = { List (List ℕ) };

    ghost view = { λ a. a.ids.items };
}

impl Ids {
    /// Makes a list of the vector. It takes no memory.
    pub fn from_vec(ids: Vec<Name>) -> Ids
        ensures { result ≡ ids.items }
    {
        Ids { ids }
    }

    /// Gives the ids back as a vector. It takes no memory.
    pub fn into_vec(self) -> Vec<Name>
        ensures { result.items ≡ self }
    {
        self.ids
    }

    /// The ids. It takes no memory.
    pub fn as_slice(&self) -> &[Name]
        ensures { result.now ≡ self.now }
    {
        self.ids.as_slice()
    }
}

/// A member of a cluster, as its `member` key says it: a consumer or else a broker, with its id, zone and limit.
#[derive(Debug, Drop)]
pub struct Joined {
    pub consumer: bool,
    pub spec: MemberSpec,
}

/// The epoch that the value of a `sync` key says: its number in decimal, without leading zeros. None exactly where
/// the text isn't one below 2^64. It takes no memory.
pub fn read_sync(value: &[u8]) -> Option<u64>
    ensures { result ≡ number_of value.now }
{
    if value.is_empty() || (value.len() > 1 && value[0] == b'0') {
        return None;
    }
    let number = read_digits(value)?;
    Some(number)
}

// The number of these digits.
#[tactic(auto, using(crate::proofs::FormatLemmas::at_past_end, crate::proofs::FormatLemmas::at_end))]
fn read_digits(digits: &[u8]) -> Option<u64>
    ensures { result ≡ number_after 0 digits.now }
{
    let mut number: u64 = 0;
    for byte in digits {
        if !byte.is_ascii_digit() {
            return None;
        }
        let digit = u64::from(*byte - b'0');
        if number > (u64::MAX - digit) / 10 {
            return None;
        }
        number = number * 10 + digit;
    }
    Some(number)
}

/// The ids that the value of a `route` or an `assign` key lists: commas join them, and the empty text has none. None
/// exactly where an item isn't an id, which has 1 to 32 letters, digits, `_` or `-`, or where an id stands twice.
pub fn read_ids(alloc: Global, value: &[u8]) -> Result<Option<Ids>, NoMemory>
    ensures { IfOk result (λ ids. ids ≡ ids_of value.now) }
{
    if value.is_empty() {
        return Ok(Some(Ids::from_vec(Vec::new(alloc))));
    }
    let parts = parts_of(alloc, value)?;
    let ids = read_items(alloc, parts.as_slice())?;
    Ok(ids)
}

/// The member of this id whose `member` key has this value: `broker ZONE LIMIT` or `consumer ZONE LIMIT`, with a zone
/// that is of the form of an id, and a limit of at most 1,024 in decimal, without leading zeros. None exactly where
/// the value isn't of this form, or `id` isn't an id. Reserved ids are taken.
#[tactic(auto, using(crate::proofs::IdLemmas::three_words, crate::proofs::IdLemmas::other_words))]
pub fn read_joined(alloc: Global, id: &Name, value: &[u8]) -> Result<Option<Joined>, NoMemory>
    ensures { IfOk result (λ joined. joined ≡ joined_of id.now value.now) }
{
    let words = words_of(alloc, value)?;
    if words.len() != 3 {
        return Ok(None);
    }
    let joined = read_words(alloc, id, words[0], words[1], words[2])?;
    Ok(joined)
}

/// The value of the `member` key of this member, which `read_joined` reads back.
pub fn print_joined(alloc: Global, joined: &Joined) -> Result<Blob, NoMemory>
    ensures text { IfOk result (λ text. text ≡ member_text joined.now) }
    ensures reads_back { IfOk result (λ text. joined_of joined.now.spec.id text ≡ Some joined.now) }
{
    let text = member_text(alloc, joined)?;
    Ok(text)
}

// The kind, the zone and the limit of the member, with a space between each two.
fn member_text(alloc: Global, joined: &Joined) -> Result<Blob, NoMemory>
    ensures text { IfOk result (λ text. text ≡ member_text joined.now) }
    ensures valid { IsTrue (is_lone_member joined.now.spec) }
{
    let limit = joined.spec.limit;
    let mut text = Blob::of(alloc, kind_word(joined.consumer))?;
    text.append(b" ")?;
    text.append(joined.spec.zone.as_slice())?;
    text.append(b" ")?;
    let digits = format!(in alloc; "{limit}")?;
    text.append(digits.as_bytes())?;
    Ok(text)
}

// The word of a member's kind.
fn kind_word(consumer: bool) -> &'static [u8]
    ensures { result.now ≡ kind_word consumer }
{
    if consumer {
        b"consumer".as_slice()
    } else {
        b"broker".as_slice()
    }
}

// The parts of the text between its commas.
fn parts_of(alloc: Global, text: &[u8]) -> Result<Vec<&[u8]>, AllocError>
    ensures { IfOk result (λ parts. map (λ part. part.now) parts.items ≡ parts_of text.now) }
{
    text.split(|byte| *byte == b',').collect(alloc)
}

// The words of the text, with a space between each two.
fn words_of(alloc: Global, text: &[u8]) -> Result<Vec<&[u8]>, AllocError>
    ensures { IfOk result (λ words. map (λ word. word.now) words.items ≡ words_of text.now) }
{
    text.split(|byte| *byte == b' ').collect(alloc)
}

// The ids that the items are. A list has few, as many as an item has replicas, so that each is compared with those
// before it.
#[tactic(auto, using(crate::proofs::IdLemmas::all_left, crate::proofs::IdLemmas::none_here, crate::proofs::IdLemmas::used_here, crate::proofs::IdLemmas::next_here, crate::proofs::IdLemmas::end_here))]
fn read_items(alloc: Global, items: &[&[u8]]) -> Result<Option<Ids>, NoMemory>
    ensures { IfOk result (λ ids. ids ≡ ids_in (map (λ item. item.now) items.now)) }
{
    let mut ids = Vec::new(alloc);
    for item in items {
        let Some(id) = read_id(alloc, item)? else {
            return Ok(None);
        };
        if is_in(&id, ids.as_slice()) {
            return Ok(None);
        }
        ids.push(id)?;
    }
    Ok(Some(Ids { ids }))
}

// Whether the id is among these.
fn is_in(id: &Name, ids: &[Name]) -> bool
    ensures { result ≡ is_in id.now ids.now }
{
    ids.iter().any(|other| *id == *other)
}

// The id that the text is.
#[tactic(auto, using(crate::proofs::IdLemmas::name_of_id))]
fn read_id(alloc: Global, text: &[u8]) -> Result<Option<Name>, NoMemory>
    ensures { IfOk result (λ id. id ≡ id_of text.now) }
{
    if !is_id(text) {
        return Ok(None);
    }
    match Name::read(alloc, text) {
        Ok(id) => Ok(Some(id)),
        Err(LabelError::NoMemory) => Err(NoMemory),
        Err(LabelError::BadName { .. } | LabelError::TooMany) => Ok(None),
    }
}

// Whether the word says a consumer, or else a broker.
fn is_consumer(word: &[u8]) -> Option<bool>
    ensures { result ≡ is_consumer word.now }
{
    if word == b"consumer".as_slice() {
        return Some(true);
    }
    if word == b"broker".as_slice() {
        return Some(false);
    }
    None
}

// The member that the words are.
fn read_words(
    alloc: Global,
    id: &Name,
    kind: &[u8],
    zone: &[u8],
    limit: &[u8],
) -> Result<Option<Joined>, NoMemory>
    ensures { IfOk result
        (λ joined. joined
        ≡ joined_with id.now (is_consumer kind.now) zone.now (number_of limit.now)) }
{
    let Some(consumer) = is_consumer(kind) else {
        return Ok(None);
    };
    let Some(limit) = read_sync(limit) else {
        return Ok(None);
    };
    if limit > MAX_LIMIT || !is_id(id.as_slice()) {
        return Ok(None);
    }
    let Some(zone) = read_id(alloc, zone)? else {
        return Ok(None);
    };
    let id = id.copy()?;
    Ok(Some(Joined {
        consumer,
        spec: MemberSpec { id, zone, limit },
    }))
}
