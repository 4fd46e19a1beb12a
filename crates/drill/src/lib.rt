//! Drills: large valid scripts, each made from two numbers.
#![tactic(auto)]

mod calls;
mod draws;
mod drill;
mod laws;
mod places;
mod roster;
mod under_way;

pub use drill::drill_script;
pub use laws::{
    a_drill_has_nothing_false, a_small_drill, honest_scripts_have_nothing_false,
    hosts_have_partners,
};

#[cfg(test)]
mod tests;
