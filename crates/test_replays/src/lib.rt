//! Tests of what no worked run can show: what a core reports about itself, readers and writers that
//! fail, calls that the program doesn't make, and stores and tables that are called directly.
#![tactic(auto)]

#[cfg(test)]
mod hostile;
#[cfg(test)]
mod parts;
#[cfg(test)]
mod replays;
#[cfg(test)]
mod steps;
#[cfg(test)]
mod stores;
#[cfg(test)]
mod tables;
