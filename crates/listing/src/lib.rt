//! The list of a book's greatest certain chains.
#![tactic(auto)]

mod finding;
mod reach;
mod search;
mod walk;
mod whole;

pub use finding::{next, next_after};
pub use whole::{ListFault, Listed, read_list};
