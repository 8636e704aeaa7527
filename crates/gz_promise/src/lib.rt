//! The promise of a shard, exactly once in order, for any machine that runs it. There are definitions and laws here, and
//! no machine.
//!
//! A machine says what is so of its shard, which is an `Account`, and proves `ExactlyOnce` of it:
//!
//! ```text
//! ensures { (es : List Event) → MayAllHappen es → Delivers (account_of (after_events es)) }
//! ```
#![tactic(auto)]

mod laws;

pub use laws::{
    a_client_of_messages_is_read_once, a_client_of_transactions_is_read_once,
    a_read_order_has_what_offsets_say, a_shard_at_rest_has_read, a_store_is_of_the_read_order,
    exactly_once_serves_users, one_order_is_kept, what_takes_nothing_is_refused,
};
