//! Replays: the lines of a scenario, what they make of a world, and its report.
//!
//! ```text
//! match replay(alloc, &mut input)? {                          // a line at a time; a refused one is told with its number
//!     Some(world) => write_all(output, world.report(alloc)?.as_slice()),
//!     None => Ok(()),                                         // there was no line
//! }
//! ```
#![tactic(auto)]

mod converge;
mod judge;
mod laws;
mod replays;
mod reply;
mod report;
mod start;
mod step;
mod world;

pub use laws::{
    a_scenario_is_what_its_lines_say, a_settle_ends_every_run, every_run_is_exactly_once,
    what_a_report_tells_is_so,
};
pub use replays::{ReplayError, refusal_line, replay};
pub use reply::{Applied, Reason, Told};
pub use world::World;
