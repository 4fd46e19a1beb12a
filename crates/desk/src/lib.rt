//! A unit with what its party was told, what it sealed, and its open batch of sends and frames.
#![tactic(auto)]

mod batch;
mod desk;
mod laws;
mod merging;
mod wire;

pub use batch::Waiting;
pub use desk::{ClosedDesk, Desk};
pub use laws::{
    deeds_follow_one_another, desks_have_the_names_of_their_states, flushed_batches_are_empty,
    frames_come_one_by_one, frames_hold_one_thing, frames_seal_nothing,
};
pub use wire::Wire;

#[cfg(test)]
mod tests;
