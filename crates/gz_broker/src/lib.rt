//! Brokers: nodes that keep journals together.
//!
//! `specs/` says what a broker is and what a step makes of it (`specs/Step.antt`): one total
//! function of state and item. The rules of one journal are those of `gz_replica`. This crate has
//! the definitions and the law below; the type comes to it with its code.
#![tactic(auto)]

mod laws;

pub use laws::what_isnt_taken_does_nothing;
