//! A day's book of lines between accounts: posted, amended, struck and cleared, and asked for its totals and its balance.
#![tactic(auto)]

mod checks;
mod entries;
mod run;
mod state;
mod table;

pub use entries::{Answer, Call, Fault, Line};
pub use run::{Entry, Replayed, replay, replay_log};
pub use state::Book;
pub use table::Side;

// as many lines as a book takes
pub const MOST_LINES: usize = 256;

// the highest account
pub const HIGHEST_ACCOUNT: u8 = 63;

// how many accounts there are, from 0 up
pub const ACCOUNTS: usize = 64;

// the greatest amount of a line, in tonnes
pub const GREATEST_AMOUNT: u32 = 1_000_000;
