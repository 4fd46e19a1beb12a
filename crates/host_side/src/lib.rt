//! The side of a unit that speaks to the host: it numbers what the host sends, and gives what
//! arrives whole.
#![tactic(auto)]

mod host;

pub use frame::SendRefused;
pub use host::{Given, HostSide};

#[cfg(test)]
mod tests;
