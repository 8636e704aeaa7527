//! Places in a specification.
ghost use Rattle.std.specs.Prelude.{◌≡◌, IfOk};
ghost use Rattle.gz_fields.specs.Paths.{below, at_place};

use gz_label::{Blob, NoMemory};
use std::alloc::Global;

/// The place of the member of this name: behind the object's own place and a dot, which the outermost
/// object has not.
pub fn path_below(alloc: Global, path: &Blob, name: &str) -> Result<Blob, NoMemory>
    ensures { IfOk result (λ p. p ≡ below path.now name.now) }
{
    let mut place = path.copy()?;
    if place.len() > 0 {
        place.append(b".")?;
    }
    place.append(name.as_bytes())?;
    Ok(place)
}

/// The place of the item with this number in the list at this place, counted from 0.
pub fn path_of_item(alloc: Global, path: &Blob, place: usize) -> Result<Blob, NoMemory>
    ensures { IfOk result (λ p. p ≡ at_place path.now place) }
{
    let text = format!(in alloc; "[{place}]")?;
    let mut item = path.copy()?;
    item.append(text.as_str().as_bytes())?;
    Ok(item)
}
