//! Sealed records of blocks of files: who holds the keys tells a block from any other.
#![tactic(auto)]

mod guarantor;
mod laws;
mod plain;

pub use guarantor::{CheckStop, Damage, Guarantor};
pub use laws::records_have_one_content;

#[cfg(test)]
mod tests;
