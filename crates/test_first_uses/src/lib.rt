//! The first uses that stand on the first pages of the lower crates, as tests. Each is here line by
//! line as on its page; `tools/check-examples` compares them.
#![tactic(auto)]

#[cfg(test)]
mod fixtures;
#[cfg(test)]
mod logs;
#[cfg(test)]
mod messages;
#[cfg(test)]
mod stores;
#[cfg(test)]
mod tables;
#[cfg(test)]
mod targets;
