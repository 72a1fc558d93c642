//! Sheets of byte commands, read and written back exactly, and the statement of a sheet.
#![tactic(auto)]

mod command;
mod last;
mod obeying;
mod page;
mod reading;
mod rows;
mod statement;
mod text;
mod writing;

pub use command::{Command, Fault, Found};
pub use reading::read;
pub use statement::Statement;
pub use writing::write;

// the most bytes that a sheet has
pub const LONGEST_SHEET: usize = 32_768;

// no command has more bytes
pub const LONGEST_COMMAND: usize = 17;

// a page has at least so many bytes
pub const SHORTEST_PAGE: usize = 320;

// how many bytes the text of a note has
pub const NOTE_LENGTH: usize = 16;
