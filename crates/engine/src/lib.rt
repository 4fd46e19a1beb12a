//! Runs a script over a unit for each host and for each level's manager.
#![tactic(auto)]

mod alone;
mod closing;
mod desks;
mod engine;
mod halt;
mod judging;
mod machine_laws;
mod merging;
mod network;
mod opening;
mod report;
mod script_laws;
mod slots;
mod step;

pub use engine::Engine;
pub use report::{EngineStop, Report};

#[cfg(test)]
mod tests;
