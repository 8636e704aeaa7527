//! Recovery logs: operations as the contents of frames, and the files that they make.
//!
//! A log is a journal of operations by authors. A process that is to write takes over by a handoff: operations of earlier
//! authors that come after it are passed over. So are those whose number isn't the next one.
//!
//! ```text
//! let mut fsm = Fsm::new(alloc);
//! if let Some(op) = read_op(alloc, content)? {
//!     if fsm.accepts(&op) {
//!         fsm.apply(&op)?;
//!     }
//! }
//! ```
#![tactic(auto)]

mod content;
mod error;
mod files;
mod fsm;
mod op;
mod recorder;
mod text;

pub use content::{print_op, read_op};
pub use error::{FsmError, RecordError};
pub use fsm::Fsm;
pub use op::{Op, OpKind};
pub use recorder::Recorder;
pub use text::Text;
