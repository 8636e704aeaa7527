//! A history that takes no memory and no time: its calls do nothing when the program runs.
ghost use Rattle.std.specs.Prelude.{◌≡◌, List, [], ◌∷◌, ◌++◌};
ghost use Rattle.std.specs.Borrow.{ftrue};

use std::marker::{Model, PhantomData};

/// What has happened, as pairs: a clause reads them as `items`, the oldest first.
#[derive(Drop)]
pub struct History<A, B> {
    of: PhantomData<(A, B)>,
    pub ghost items: { List (A × B) },
}

impl<A, B> Model for History<A, B> {
    ghost also_owns = { λ _. ftrue };
}

impl<A, B> History<A, B> {
    /// Nothing has happened yet.
    pub fn new() -> History<A, B>
        ensures { result.items ≡ [] }
    {
        History { of: PhantomData }
    }

    /// The same, and this pair behind it.
    pub fn and(&self, first: &A, second: &B) -> History<A, B>
        ensures { result.items ≡ self.now.items ++ (first.now, second.now) ∷ [] }
    {
        History { of: PhantomData }
    }
}
