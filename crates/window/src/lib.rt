//! Pieces of messages put together, for each partner by itself.
#![tactic(auto)]

mod heads;
mod reception;
pub mod scan;
mod window;

pub use reception::Taken;
pub use window::Window;

#[cfg(test)]
mod tests;
