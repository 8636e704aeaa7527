//! What is loaded from a log's files.
ghost use Rattle.gz_store.specs.Stores.{Loads, load};

use crate::{LoadError, Store, read_store};
use gz_label::Name;
use gz_recovery::Fsm;
use std::alloc::Global;

/// The state and the checkpoint of the last commit. NoState exactly where no file is at the path `state`, and BadState
/// exactly where its text is none of a commit, byte by byte.
pub fn load(alloc: Global, fsm: &Fsm) -> Result<Store, LoadError>
    ensures { Loads result (load fsm.now) }
{
    let path = Name::of(alloc, "state")?;
    let Some(text) = fsm.file_at(&path) else {
        return Err(LoadError::NoState);
    };
    match read_store(alloc, text.as_slice())? {
        Some(store) => Ok(store),
        None => Err(LoadError::BadState),
    }
}
