// Cases of next, each on a row of its own.
use anyhow::ensure;
use book::Book;
use case_words::{FILLER, Kept, Lines, Refusal, line_numbers, next_number, next_word};
use chains::{Fault, LONGEST_CHAIN};
use listing::next;
use std::alloc::{AllocError, Global};
use std::fmt;
use std::str::SplitWhitespace;

// A row before and after a call, and what was answered.
#[derive(Drop)]
pub struct Stepped {
    before: Vec<u16>,
    after: Vec<u16>,
    answer: Result<Option<(usize, u64)>, Fault>,
}

// What next answers, the chain found, and whether the rest of the row holds what it held before.
impl fmt::Display for Stepped {
    fn fmt<W: fmt::Write>(&self, f: &mut fmt::Formatter<W>) -> fmt::Result {
        let length = match self.answer {
            Ok(Some((length, figure))) => {
                let lines = Lines(&self.after[..length.min(self.after.len())]);
                write!(f, "found {figure} on{lines}")?;
                length
            }
            Ok(None) => {
                write!(f, "done")?;
                0
            }
            Err(fault) => {
                let refusal = Refusal(fault);
                write!(f, "{refusal}")?;
                0
            }
        };
        let mut rest = self.before.iter().zip(&self.after).skip(length);
        let rest = Kept(rest.all(|(old, new)| old == new));
        write!(f, "; rest {rest}")
    }
}

// `FLOOR LIST`, the list in a row of the entries that a row needs
pub fn next_after_list(
    heap: Global,
    book: &Book,
    mut words: SplitWhitespace<'_>,
) -> anyhow::Result<Stepped> {
    let floor = next_number(&mut words)?;
    let given = line_numbers(heap, words)?;
    let length = given.len();
    Ok(hand_to_next(heap, book, floor, length, laid_row(LONGEST_CHAIN, given)?)?)
}

// `ENTRIES LENGTH next FLOOR NUMBERS`, a row of so many entries that begins with the numbers
pub fn laid_next(
    heap: Global,
    book: &Book,
    mut words: SplitWhitespace<'_>,
) -> anyhow::Result<Stepped> {
    let entries = next_number(&mut words)?;
    let length = next_number(&mut words)?;
    ensure!(next_word(&mut words)? == "next", "a row is handed to next");
    let floor = next_number(&mut words)?;
    let numbers = line_numbers(heap, words)?;
    Ok(hand_to_next(heap, book, floor, length, laid_row(entries, numbers)?)?)
}

// A row of so many entries that begins with the numbers given, as far as they fit.
fn laid_row(entries: usize, mut given: Vec<u16>) -> Result<Vec<u16>, AllocError> {
    given.resize(entries, FILLER)?;
    Ok(given)
}

fn hand_to_next(
    heap: Global,
    book: &Book,
    floor: u32,
    given: usize,
    mut row: Vec<u16>,
) -> Result<Stepped, AllocError> {
    let before = row.to_vec(heap)?;
    let answer = next(book, floor, given, &mut row);
    Ok(Stepped {
        before,
        after: row,
        answer,
    })
}
