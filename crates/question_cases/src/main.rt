//! Puts the cases of each file to a book of its own and prints what each answers.
#![tactic(auto)]

use book::Book;
use case_words::reply_to;
use cases::answer_case;
use std::fs;

mod cases;
mod divisions;
mod lists;
mod rows;
mod rules;

fn main(rt: HostRuntime) -> anyhow::Result<()> {
    for path in ["dividing.txt", "listing.txt", "avoiding.txt", "naming.txt"] {
        print_cases(&rt, path)?;
    }
    Ok(())
}

// All cases of a file go to the same book. This loop stands in each program of cases: in the library it would be told of a closure that changes the book, with a longer contract.
// A case is written before it is put to the book, so that it is seen which case could not be read.
fn print_cases(rt: &HostRuntime, path: &str) -> anyhow::Result<()> {
    let text = fs::read_to_string(rt, path)?;
    let mut book = Book::new();
    for line in text.as_str().lines() {
        let replied = reply_to(line, |text| {
            print!(rt; "{text} -> ")?;
            answer_case(rt.alloc(), &mut book, text)
        })?;
        match replied.reply {
            Some(answered) => rt.println(answered)?,
            None => rt.println(line)?,
        }
    }
    Ok(())
}
