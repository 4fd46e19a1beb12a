//! Calls to a file manager, its replies, and how both are spelled in messages.
#![tactic(auto)]

mod call;
mod fields;
mod laws;
mod name;
mod read;
mod write;

pub use call::{Call, Reply};
pub use laws::{calls_have_one_spelling, replies_have_one_spelling};
pub use name::{Content, Name, NameList};
pub use read::{read_call, read_reply};
pub use write::{write_call, write_reply};

#[cfg(test)]
mod tests;
