//! Specifications as a whole, and with more of them.
ghost use Rattle.std.specs.Prelude.{◌≡◌, length, IfOk, IsTrue, codes};
ghost use Rattle.gz_fields.specs.Outcomes as fields;
ghost use Rattle.gz_fields.specs.Lists.{no_more_than};
ghost use Rattle.gz_spec.specs.Limits.{max_journals, max_shards};
ghost use Rattle.gz_spec.specs.Specs.{name_of_journal, id_of_shard};
ghost use Rattle.gz_spec.specs.Valid.{are_journals, are_shards, are_specs};
ghost use Rattle.gz_links.specs.Outcomes.{Gives};
ghost use Rattle.gz_links.specs.Whole.{acyclic, whole, specs_of};
ghost use Rattle.gz_links.specs.Joins.{contents_kept, joined, join_of};

use crate::SpecError;
use crate::by_name::{JournalsByName, ShardsById};
use crate::cycles::first_cycle;
use crate::joins::{joined_journals, joined_shards, refuse_changed, refuse_more};
use crate::links::refuse_unlinked;
use gz_fields::{FieldError, path_of_item};
use gz_label::Blob;
use gz_spec::{Journals, MAX_JOURNALS, MAX_SHARDS, ShardSpec, Shards, Specs, read_part};
use std::alloc::Global;

/// Refuses shards one of which reaches itself.
#[tactic(auto, unfolding(crate::specs::Whole::acyclic))]
fn refuse_cycle(alloc: Global, shards: &[ShardSpec]) -> Result<(), SpecError>
    ensures { Gives (λ u. u) result (acyclic shards.now) }
{
    let found = first_cycle(alloc, shards)?;
    match found {
        None => Ok(()),
        Some(i) => {
            let list = Blob::of(alloc, b"shards")?;
            let path = path_of_item(alloc, &list, i)?;
            Err(SpecError::Cycle { path })
        }
    }
}

/// Refuses shards the first of which names a journal that isn't there, and then shards one of which
/// reaches itself.
#[tactic(auto, using(crate::proofs::ByName::specs_fresh), unfolding(crate::specs::Whole::whole))]
fn refuse_broken(alloc: Global, specs: &Specs) -> Result<(), SpecError>
    ensures { Gives (λ _. specs.now) result (whole specs.now) }
{
    let journals = JournalsByName::of(alloc, specs.journals.as_slice())?;
    refuse_unlinked(alloc, &journals, specs.shards.as_slice())?;
    refuse_cycle(alloc, specs.shards.as_slice())?;
    Ok(())
}

/// The four lists that the text says. A member `do` of the outermost object is passed over. What is read is
/// printed and read back the same.
#[tactic(auto, unfolding(crate::specs::Whole::specs_of), using(crate::proofs::Fields::fields_fail))]
pub fn read_specs(alloc: Global, bytes: &[u8]) -> Result<Specs, SpecError>
    ensures gives { Gives (λ s. s) result (specs_of bytes.now) }
    ensures valid { IfOk result (λ s. IsTrue (are_specs s)) }
{
    let specs = read_part(alloc, bytes)?;
    refuse_broken(alloc, &specs)?;
    Ok(specs)
}

/// Refuses the first of more that changes what the journal of its name holds.
#[tactic(auto, using(crate::proofs::ByName::journals_fresh))]
fn refuse_changes(alloc: Global, old: &Journals, more: &Journals) -> Result<(), FieldError>
    requires { IsTrue (are_journals old.now) }
    ensures { fields.Gives (λ u. u) result (contents_kept old.now 0 more.now) }
{
    let here = JournalsByName::of(alloc, old.as_slice())?;
    refuse_changed(alloc, &here, more.as_slice())?;
    Ok(())
}

/// The journals of both. BadNumber where there are more than 1,024.
#[tactic(auto, using(crate::proofs::ByName::journals_fresh))]
fn join_journals(alloc: Global, old: &Journals, more: &Journals) -> Result<Journals, FieldError>
    requires old { IsTrue (are_journals old.now) }
    requires more { IsTrue (are_journals more.now) }
    ensures gives { fields.Gives
        (λ _. tt) result
        (no_more_than max_journals (codes "journals")
        (length (joined name_of_journal old.now more.now))) }
    ensures both { IfOk result (λ js. js ≡ joined name_of_journal old.now more.now) }
    ensures valid { IfOk result (λ js. IsTrue (are_journals js)) }
{
    let here = JournalsByName::of(alloc, old.as_slice())?;
    let there = JournalsByName::of(alloc, more.as_slice())?;
    let both = joined_journals(alloc, &here, &there)?;
    let journals = Journals::of(both);
    refuse_more(alloc, "journals", journals.as_slice().len(), MAX_JOURNALS)?;
    Ok(journals)
}

/// The shards of both. BadNumber where there are more than 256.
#[tactic(auto, using(crate::proofs::ByName::shards_fresh))]
fn join_shards(alloc: Global, old: &Shards, more: &Shards) -> Result<Shards, FieldError>
    requires old { IsTrue (are_shards old.now) }
    requires more { IsTrue (are_shards more.now) }
    ensures gives { fields.Gives
        (λ _. tt) result
        (no_more_than max_shards (codes "shards") (length (joined id_of_shard old.now more.now))) }
    ensures both { IfOk result (λ ss. ss ≡ joined id_of_shard old.now more.now) }
    ensures valid { IfOk result (λ ss. IsTrue (are_shards ss)) }
{
    let here = ShardsById::of(alloc, old.as_slice())?;
    let there = ShardsById::of(alloc, more.as_slice())?;
    let both = joined_shards(alloc, &here, &there)?;
    let shards = Shards::of(both);
    refuse_more(alloc, "shards", shards.as_slice().len(), MAX_SHARDS)?;
    Ok(shards)
}

/// The specifications with the journals and shards of `more`: one of a name that is there replaces it in its
/// place, and the new ones follow in their order. The members stay. BadField with the path of the labels in `more`
/// where the values of a replaced journal's label `content-type` would change; else BadNumber where there would be
/// more than 1,024 journals or 256 shards; then NoJournal and Cycle, of all.
#[tactic(auto, unfolding(crate::specs::Joins::join_of), using(crate::proofs::Fields::fields_fail))]
pub fn join(alloc: Global, specs: &Specs, more: &Specs) -> Result<Specs, SpecError>
    ensures gives { Gives (λ specs. specs) result (join_of specs.now more.now) }
    ensures valid { IfOk result (λ specs. IsTrue (are_specs specs)) }
{
    refuse_changes(alloc, &specs.journals, &more.journals)?;
    let both = Specs {
        journals: join_journals(alloc, &specs.journals, &more.journals)?,
        shards: join_shards(alloc, &specs.shards, &more.shards)?,
        brokers: specs.brokers.copy()?,
        consumers: specs.consumers.copy()?,
    };
    refuse_broken(alloc, &both)?;
    Ok(both)
}
