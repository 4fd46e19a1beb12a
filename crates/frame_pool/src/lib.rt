//! Slots of 88 bytes, handed out from one list of free slots and held by owners within quotas.
#![tactic(auto)]

mod chain;
mod laws;
mod pool;

pub use chain::Chain;
pub use laws::{a_slot_has_one_place, an_empty_place_finds_a_slot};
pub use pool::{BLOCK_SIZE, PLACES, Pool};

#[cfg(test)]
mod tests;
