//! Dividing a book under any lawful rule.
#![tactic(auto)]

mod avoiding;
mod division;
mod left;
mod lowest;
mod open;
mod opposing;
mod rules;
mod state;
mod tables;
mod widest;

pub use avoiding::Avoiding;
pub use division::divide;
pub use lowest::Lowest;
pub use opposing::counter;
pub use rules::Rule;
pub use widest::Widest;

// row i stands at entry ROW_STRIDE × i
pub const ROW_STRIDE: usize = 64;

// the table of rows needs so many entries
pub const TABLE_ENTRIES: usize = 16_384;

// the table of tonnes needs so many
pub const TABLE_TONNES: usize = 256;
