//! The side of a unit that speaks to the network: it opens the frames that come, and seals what
//! the host sends.
#![tactic(auto)]

mod inbound;
mod laws;
mod net;

pub use inbound::Inbound;
pub use laws::{bytes_hold_one_thing, open_bytes_hold_more};
pub use net::NetSide;

#[cfg(test)]
mod tests;
