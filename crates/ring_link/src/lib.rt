//! Two rings of pieces between the two sides of a unit, each with a backlog, so that no offer is
//! refused.
#![tactic(auto)]

mod end;
mod gate;
mod laws;
mod link;

pub use gate::{Gate, NoGate, Side};
pub use laws::{calls_are_steps, each_piece_arrives_in_order};
pub use link::{HostEnd, Link, NetEnd};

#[cfg(test)]
mod tests;
