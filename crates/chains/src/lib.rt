//! Questions about the chains of a book.
#![tactic(auto)]

mod certainty;
mod checks;
mod faults;
mod line_parts;

pub use certainty::{Certainty, certain};
pub use checks::{check_balance, check_chain, parts};
pub use faults::Fault;
pub use line_parts::Parts;

// a chain has at most so many lines
pub const LONGEST_CHAIN: usize = 63;
