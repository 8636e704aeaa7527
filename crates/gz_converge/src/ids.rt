//! Lists of ids. They are short, as many as an item has replicas, so that each id is compared with each.
ghost use Rattle.std.specs.Prelude.{◌≡◌, ◌++◌, IfOk, OnOk};
ghost use Rattle.gz_keyspace.specs.Formats.{is_in};
ghost use Rattle.gz_converge.specs.Cases.{within, without, are_within, same_ids};
ghost use Rattle.gz_converge.specs.Converged.{ids_text, more_text};

use gz_label::{Blob, Name, NoMemory};
use std::alloc::Global;

/// Whether the id is among the others.
pub fn is_in(id: &Name, others: &[Name]) -> bool
    ensures { result ≡ is_in id.now others.now }
{
    others.iter().any(|other| *id == *other)
}

/// Those of the ids that are among the others.
pub fn within(alloc: Global, ids: &[Name], others: &[Name]) -> Result<Vec<Name>, NoMemory>
    ensures { IfOk result (λ kept. kept.items ≡ within ids.now others.now) }
{
    let mut kept = Vec::new(alloc);
    for id in ids {
        if is_in(id, others) {
            let id = id.copy()?;
            kept.push(id)?;
        }
    }
    Ok(kept)
}

/// Those of the ids that aren't among the others.
pub fn without(alloc: Global, ids: &[Name], others: &[Name]) -> Result<Vec<Name>, NoMemory>
    ensures { IfOk result (λ kept. kept.items ≡ without ids.now others.now) }
{
    let mut kept = Vec::new(alloc);
    for id in ids {
        if !is_in(id, others) {
            let id = id.copy()?;
            kept.push(id)?;
        }
    }
    Ok(kept)
}

/// Whether all of the ids are among the others.
pub fn are_within(ids: &[Name], others: &[Name]) -> bool
    ensures { result ≡ are_within ids.now others.now }
{
    ids.iter().all(|id| is_in(id, others))
}

/// Whether the lists are the same.
pub fn same_ids(ids: &[Name], others: &[Name]) -> bool
    ensures { result ≡ same_ids ids.now others.now }
{
    ids == others
}

// Puts each of the ids at the end, with a comma before it.
fn append_more(text: &mut Blob, ids: &[Name]) -> Result<(), NoMemory>
    ensures { OnOk result (text.new ≡ text.old ++ more_text ids.now) }
{
    for id in ids {
        text.append(b",")?;
        text.append(id.as_slice())?;
    }
    Ok(())
}

/// The ids, with a comma between each two.
pub fn ids_text(alloc: Global, ids: &[Name]) -> Result<Blob, NoMemory>
    ensures { IfOk result (λ text. text ≡ ids_text ids.now) }
{
    let Some((first, rest)) = ids.split_first() else {
        return Ok(Blob::new(alloc));
    };
    let mut text = Blob::of(alloc, first.as_slice())?;
    append_more(&mut text, rest)?;
    Ok(text)
}
