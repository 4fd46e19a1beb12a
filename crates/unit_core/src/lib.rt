//! A unit: the side that speaks to its host and the side that speaks to the network, joined. A
//! turn takes what the host sends and the frames that the network hands over, and gives sealed
//! frames and messages.
#![tactic(auto)]

mod bodies;
mod host_turn;
mod messages;
mod net_turn;
mod out;
mod parts;
mod rows;
mod sends;
mod settling;
mod tally;
mod unit;

pub use out::TurnOut;
pub use rows::{FrameKind, GivenRow, SendAnswer};
pub use sends::Sends;
pub use tally::Tally;
pub use unit::Unit;

#[cfg(test)]
mod tests;
