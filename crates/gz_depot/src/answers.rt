//! What the store answers.
ghost use Rattle.std.specs.Prelude.{◌≡◌, ◌-◌, ◌∷◌, ◌++◌, [], IfOk, OnOk, take, drop, Some, None, if◌then◌else◌};
ghost use Rattle.std.specs.Option.{option_copied};
ghost use Rattle.gz_fragment.specs.Names.{name_of as content_name, name_text};
ghost use Rattle.gz_depot.specs.Depot.{is_span, got, max_read, name_at, names_of, send};

use gz_fragment::{Fragment, FragmentName, Index, name_of};
use gz_label::{Blob, Name, NoMemory};
use gz_wire::{Msg, Names, Send, Sends};
use std::alloc::Global;

/// The most bytes of an answer to a get.
const MAX_READ: usize = 262_144;

/// The most bytes of a name.
const MAX_NAME: usize = 1024;

/// One message to the sender.
pub fn one_send(alloc: Global, from: &Name, msg: Msg) -> Result<Sends, NoMemory>
    ensures { IfOk result (λ sends. sends ≡ send from.now msg ∷ []) }
{
    let to = from.copy()?;
    let mut sends = Sends::new(alloc);
    sends.push(Send { to, msg })?;
    Ok(sends)
}

/// The name of a content that goes from begin to end; None exactly where there is no byte, the content hasn't that
/// length, or it ends above 2^62.
pub fn name_in_span(begin: u64, end: u64, content: &[u8]) -> Option<FragmentName>
    ensures { result
        ≡ (if is_span begin end content.now then Some (content_name begin content.now) else None) }
{
    if begin >= end || content.len() as u64 != end - begin {
        return None;
    }
    name_of(begin, content)
}

// A name's text as a name of the cluster's messages.
fn printed(alloc: Global, name: &FragmentName) -> Result<Name, NoMemory>
    ensures { IfOk result (λ text. text ≡ name_text name.now) }
{
    let text = name.to_text(alloc)?;
    // It has 78 bytes.
    if text.len() > MAX_NAME {
        return Err(NoMemory);
    }
    let printed = Name::of(alloc, text.as_str())?;
    Ok(printed)
}

// Puts the name of the fragment at the place, where there is one, behind the names.
#[tactic(auto, using(crate::proofs::Names::none_more))]
fn push_name(
    alloc: Global,
    names: &mut Vec<Name>,
    index: &Index,
    place: usize,
) -> Result<(), NoMemory>
    ensures { OnOk result (names.new.items ≡ names.old.items ++ name_at place index.now) }
{
    match index.nth(place) {
        None => Ok(()),
        Some((name, _)) => {
            let text = printed(alloc, name)?;
            names.push(text)?;
            Ok(())
        }
    }
}

/// The names of all fragments.
#[tactic(auto, using(crate::proofs::Names::next_name, crate::proofs::Names::all_names))]
pub fn names_of(alloc: Global, index: &Index) -> Result<Names, NoMemory>
    ensures { IfOk result (λ names. names ≡ names_of index.now) }
{
    let mut names = Vec::new(alloc);
    'places: for place in 0..index.len() {
        push_name(alloc, &mut names, index, place)?;
    }
    Ok(Names::from_vec(names))
}

// The bytes behind so many.
#[tactic(auto, using(std::proofs::lemmas::List::drop_min))]
fn behind(bytes: &[u8], count: u64) -> &[u8]
    ensures { result.now ≡ drop count bytes.now }
{
    let start = count.min(bytes.len() as u64) as usize;
    &bytes[start..]
}

// The first bytes, as many as an answer may have.
#[tactic(auto, using(std::proofs::lemmas::List::take_min))]
fn first_bytes(bytes: &[u8]) -> &[u8]
    ensures { result.now ≡ take max_read bytes.now }
{
    let count = MAX_READ.min(bytes.len());
    &bytes[..count]
}

// The fragment's bytes from the offset on.
fn bytes_from(alloc: Global, fragment: &Fragment, offset: u64) -> Result<Blob, NoMemory>
    ensures { IfOk result
        (λ bytes. bytes
        ≡ take max_read (drop (offset - fragment.now.name.begin) fragment.now.content)) }
{
    let start = offset.saturating_sub(fragment.name.begin());
    let rest = behind(fragment.content.as_slice(), start);
    let bytes = Blob::of(alloc, first_bytes(rest))?;
    Ok(bytes)
}

/// The answer to a get for which this fragment was found.
pub fn got_of(
    alloc: Global,
    req: u64,
    journal: Name,
    offset: u64,
    found: Option<&Fragment>,
) -> Result<Msg, NoMemory>
    ensures { IfOk result (λ msg. msg ≡ got req journal offset (option_copied found.entry)) }
{
    match found {
        None => Ok(Msg::StoreGot {
            req,
            journal,
            status: 1,
            offset,
            content: Blob::new(alloc),
        }),
        Some(fragment) => {
            let content = bytes_from(alloc, fragment, offset)?;
            Ok(Msg::StoreGot {
                req,
                journal,
                status: 0,
                offset,
                content,
            })
        }
    }
}
