//! The first uses that stand on the first pages of the upper crates, as tests; that of
//! `coap_model`, the call of a law, as a function with a contract. Each is here line by line as on
//! its page; `tools/check-examples` compares them.
#![tactic(auto)]

#[cfg(test)]
mod counting;
#[cfg(test)]
mod driving;
#[cfg(test)]
mod fixtures;
pub mod promises;
#[cfg(test)]
mod steps;
#[cfg(test)]
mod texts;
