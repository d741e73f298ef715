//! Examples that guard the promises: what one condition of a definition alone refuses, and what is
//! accepted at its edge. Public functions that do nothing, whose contracts are the examples, or
//! laws that fail without a condition. No crate depends on them.
//!
//! A clause that begins with `but_for_` says that all other conditions hold of what is refused
//! beside it. A clause `whole` says that nothing more is missing: with the condition that is left
//! it is accepted.
#![tactic(auto)]

pub mod ages;
pub mod choices;
pub mod fetches;
pub mod limits;
pub mod promises;
pub mod replies;
pub mod schedules;
pub mod shares;
pub mod validations;
