//! A store that nobody trusts, and one that answers by a plan.
#![tactic(auto)]

mod asked;
mod next;
mod plan;
mod planned;
mod slot;
mod store;

pub use plan::{PlanRow, StoreAction};
pub use planned::PlannedStore;
pub use slot::{Blob, Slot};
pub use store::Store;

#[cfg(test)]
mod tests;
