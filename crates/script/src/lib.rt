//! Script text: reading it, with the first line that is refused, and writing it.
#![tactic(auto)]

mod bytes;
mod categories;
mod cut;
mod edits;
mod laws;
mod line;
mod message;
mod number;
mod parties;
mod read;
mod read_call;
mod read_event;
mod reading;
mod refusal;
mod search;
mod stage;
mod words;
mod write;
mod write_event;
mod write_word;

pub use events::{AskedCall, Body, Edits, Event, ForgedFrame, Script, ScriptStop, Stream};
pub use laws::{
    clean_texts_are_their_own, each_text_has_one_outcome, events_stand_at_their_lines,
    scripts_read_again,
};
pub use read::{TEXT_LIMIT, read_script};
pub use refusal::{Reason, Refusal, ScriptRefused};
pub use write::write_script;

#[cfg(test)]
mod tests;
