//! The top call of the program: what it does with its words, its input and its output.
#![tactic(auto)]

mod command;
mod lines;
mod owed;
mod print;
mod status;
mod summary;
mod top;
mod twins;
mod wire;

pub use status::Status;
pub use top::run;

#[cfg(test)]
mod tests;
