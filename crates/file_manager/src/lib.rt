//! The file manager: the files of each level, over a store that nobody trusts.
#![tactic(auto)]

mod calls;
mod manager;
mod outcome;
mod read;
mod shelf;
mod versions;
mod write;

pub use manager::Manager;
pub use outcome::{Got, Outcome};

#[cfg(test)]
mod tests;
