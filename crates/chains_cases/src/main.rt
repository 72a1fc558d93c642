//! Puts the cases of cases.txt to one book and prints what each answers.
#![tactic(auto)]

use book::Book;
use case_words::reply_to;
use cases::answer_case;
use std::fs;

mod cases;

// All cases go to the same book. This loop stands in each program of cases: in the library it would be told of a closure that changes the book, with a longer contract.
fn main(rt: HostRuntime) -> anyhow::Result<()> {
    let cases = fs::read_to_string(&rt, "cases.txt")?;
    let mut book = Book::new();
    for line in cases.as_str().lines() {
        let replied = reply_to(line, |text| answer_case(rt.alloc(), &mut book, text))?;
        rt.println(replied)?;
    }
    Ok(())
}
