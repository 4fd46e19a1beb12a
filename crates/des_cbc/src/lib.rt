//! The data encryption standard (FIPS 46-3), its cipher block chaining (FIPS 81), and the sealing
//! that is made of them.
#![tactic(auto)]

mod chaining;
mod chosen_high;
mod chosen_low;
mod parity;
mod rounds;
mod schedule;
mod sealing;
mod selected;
mod words;

pub use chaining::{cbc_decrypt, cbc_encrypt};
pub use parity::{is_weak, same_key};
pub use schedule::Schedule;
pub use sealing::DesSeal;

#[cfg(test)]
mod tests;
