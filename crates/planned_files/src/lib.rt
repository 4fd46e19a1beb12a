//! The files of a script: a file manager over a store that answers by a plan, which says where a
//! false record opens.
#![tactic(auto)]

mod files;

pub use files::{Answer, PlannedFiles};

#[cfg(test)]
mod tests;
