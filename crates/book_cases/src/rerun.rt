// Replays: what each call of a run answers, and the lines of the book at the end.
use book::{Book, Call, replay};
use case_words::{Reply, Told, next_word, parse_call};
use std::alloc::Global;

// Replays the calls of a text, one to a line.
pub fn print_replay(rt: &HostRuntime, text: &str) -> anyhow::Result<()> {
    let calls = parse_calls(rt.alloc(), text)?;
    let replayed = replay(rt.alloc(), &calls)?;
    for (line, answer) in text.lines().zip(&replayed.answers) {
        let told = Told::from(*answer);
        println!(rt; "{line} -> {told}")?;
    }
    print_lines(rt, &replayed.book)
}

fn parse_calls(heap: Global, text: &str) -> anyhow::Result<Vec<Call>> {
    text.lines().map(parse_line).try_collect(heap)
}

fn parse_line(line: &str) -> anyhow::Result<Call> {
    let mut words = line.split_whitespace();
    parse_call(next_word(&mut words)?, &mut words)
}

fn print_lines(rt: &HostRuntime, book: &Book) -> anyhow::Result<()> {
    let count = book.len();
    println!(rt; "len -> {count}")?;
    for number in 0..count as u16 {
        let reply = Reply::Line(book.line(number));
        println!(rt; "line {number} -> {reply}")?;
    }
    Ok(())
}
