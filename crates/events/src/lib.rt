//! The events of a script, and the script that holds them.
#![tactic(auto)]

mod asked;
mod body;
mod edits;
mod event;
mod forged;
mod script;
mod words;

pub use asked::AskedCall;
pub use body::Body;
pub use edits::Edits;
pub use event::{Event, Stream};
pub use forged::ForgedFrame;
pub use script::{Script, ScriptStop};
pub use words::{push_hex, push_number};

#[cfg(test)]
mod tests;
