//! Lists of objects, each of a name that no earlier one has.
ghost use Rattle.std.specs.Prelude.{◌≡◌, ◌++◌, ◌∷◌, [], OnOk};
ghost use Rattle.serde_json.specs.View.{items_view};
ghost use Rattle.gz_fields.specs.Outcomes.{Gives};
ghost use Rattle.gz_fields.specs.Lists.{count, no_more_than, unused};

use crate::FieldError;
use gz_label::{Blob, Name};
use indexmap::IndexSet;
use serde_json::Value;

/// Refuses a list of more items than this.
#[tactic(auto, using(crate::proofs::Counts::count_view))]
pub fn refuse_long(path: &Blob, items: &[Value], most: usize) -> Result<(), FieldError>
    ensures { Gives (λ u. u) result (no_more_than most path.now (count (items_view items.now))) }
{
    if items.len() > most {
        return Err(FieldError::BadNumber { path: path.copy()? });
    }
    Ok(())
}

/// Notes that the name is used, and refuses one that was used before. The path is the name's own.
pub fn use_name(used: &mut IndexSet<Name>, path: Blob, name: &Name) -> Result<(), FieldError>
    ensures gives { Gives (λ u. u) result (unused path used.old.keys name.now) }
    ensures noted { OnOk result (used.new.keys ≡ used.old.keys ++ name.now ∷ []) }
{
    if used.contains(name) {
        return Err(FieldError::Twice { path });
    }
    let copied = name.copy()?;
    used.insert(copied)?;
    Ok(())
}
