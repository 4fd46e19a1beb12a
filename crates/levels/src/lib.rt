#![tactic(auto)]

mod hosts;
mod keys;
mod level;
mod name;
mod roster;
mod rows;

pub use level::{Level, Partition, Party, Sealing};
pub use name::LevelName;
pub use roster::{Roster, RosterStop};
pub use rows::{HostRow, LevelRow};

#[cfg(test)]
mod tests;
