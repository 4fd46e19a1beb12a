//! What two scripts have in common at and below a level.
#![tactic(auto)]

mod calls;
mod comparing;
mod laws;
mod places;
mod rosters;
mod same;

pub use comparing::{Comparison, compare};
pub use laws::{places_hold_the_low_part, scripts_compare_in_one_way};
pub use places::{LowItem, LowPart, low_part};

#[cfg(test)]
mod tests;
