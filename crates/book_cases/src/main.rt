//! Puts the cases of cases.txt to one book and prints what each answers; then does the same for replays.
#![tactic(auto)]

use book::Book;
use case_words::reply_to;
use cases::Case;
use rerun::print_replay;
use std::fs;

mod cases;
mod rerun;

fn main(rt: HostRuntime) -> anyhow::Result<()> {
    let cases = fs::read_to_string(&rt, "cases.txt")?;
    print_cases(&rt, cases.as_str())?;
    rt.println("# a replay of no calls")?;
    print_replay(&rt, "")?;
    rt.println("# a replay of the calls of replay.txt")?;
    let calls = fs::read_to_string(&rt, "replay.txt")?;
    print_replay(&rt, calls.as_str())
}

// All cases go to the same book. This loop stands in each program of cases: in the library it would be told of a closure that changes the book, with a longer contract.
fn print_cases(rt: &HostRuntime, text: &str) -> anyhow::Result<()> {
    let mut book = Book::new();
    for line in text.lines() {
        let replied = reply_to(line, |text| Ok(Case::parse(text)?.put_to(&mut book)))?;
        rt.println(replied)?;
    }
    Ok(())
}
