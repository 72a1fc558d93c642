//! What the programs of cases share, and some of it the program of a dispute: the words of a line, the calls that they name, replies, and tables lent. What `{}`
//! writes of these stands in `specs/Shown.antt`; that the programs print it is compared with what is stored.
#![tactic(auto)]

mod calls;
mod replies;
mod tables;
mod words;

pub use calls::{Change, parse_call};
pub use replies::{Refusal, Replied, Reply, Told, reply_to};
pub use tables::{FILLER, Kept, Lines, Rows, Tables, lines_of};
pub use words::{each_word, line_numbers, next_number, next_word};
