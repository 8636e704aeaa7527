//! Applications: what they make of messages, and the state that they keep.
//!
//! ```text
//! let Some(app) = app_of(&name) else { .. };                  // `count`, `relay` or `latest`
//! let mut state = State::new(alloc);
//! let output = app.consume(alloc, &mut state, &message)?;      // what it emits, if anything
//! let text = print_state(alloc, &state)?;                      // compact JSON
//! ```
#![tactic(auto)]

mod app;
mod laws;
mod output;
mod state;

pub use app::{App, AppKind, Count, Latest, Relay, app_of};
pub use laws::fold_of_joined_messages;
pub use output::{Output, Outputs};
pub use state::{Kept, State, Text, print_state, state_value};
