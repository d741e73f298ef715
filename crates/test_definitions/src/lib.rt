//! Examples, computed with the definitions of the other crates: public functions that do nothing,
//! whose contracts are the examples. No crate depends on them.
#![tactic(auto)]

pub mod cache;
pub mod limits;
pub mod messages;
pub mod options;
pub mod routes;
