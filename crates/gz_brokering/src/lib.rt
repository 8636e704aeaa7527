//! A broker: what it does with messages of clients and of other nodes.
//!
//! `gz_broker` defines what a broker is and what a step makes of it; the rules of one journal are calls of `gz_replica`.
//! Here are the rows of a broker, the queue of answers, and what follows a rule of one journal. What is missing of the
//! step: changes of the keys, appends, reads, the store's answers, and what is sent again.
//!
//! ```text
//! let mut broker = Broker::new(alloc, name);
//! let out = broker.ruled(&journal, Rule::OnPromise { from, epoch })?;     // what a message makes of one journal
//! let sends = out.into_sends()?;                                          // answers of closed parts first
//! ```
#![tactic(auto)]

mod answer;
mod broker;
mod content;
mod keys;
mod out;
mod queue;
mod reading;
mod row;
mod rows;
mod rule;

pub use answer::{Answer, Queued};
pub use broker::Broker;
pub use out::Out;
pub use queue::Queue;
pub use reading::Fetch;
pub use row::{Outstanding, Row};
pub use rule::Rule;
