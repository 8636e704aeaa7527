//! Which image a primary takes.

/// Which image a primary takes.
#[derive(Clone, Copy, Debug, PartialEq, Eq)]
pub enum Choice {
    /// Its own.
    Own,
    /// That of the member at this place, or an empty one at the store's end, where there is no report.
    At(usize),
}
