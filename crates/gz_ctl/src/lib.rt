//! The commands.
//!
//! ```text
//! let exit = gazctl(alloc, &arguments, &mut input, &mut output);
//! std::process::exit(exit.status());                          // 0 where a report was written
//! ```
#![tactic(auto)]

mod command;

pub use command::gazctl;
