// Cases: what one line of text asks of a book.
use book::{Answer, Book, Call, Fault, Side};
use case_words::{Reply, Told, next_number, next_word, parse_call};
use std::str::SplitWhitespace;

// What is asked, and how many times. It is no `Change`, which is a call alone: one type for both would be passed what to read and to ask, and be no plainer.
#[derive(Clone, Copy)]
pub struct Case {
    times: u16,
    ask: Ask,
}

#[derive(Clone, Copy)]
enum Ask {
    // a change, by the call of its own name
    Change(Call),
    // a change, by `make`
    Make(Call),
    Balance,
    Line(u16),
    Live(u16),
    Len,
    Total(Side, u8),
    Totals(Side),
}

impl Case {
    // Reads `CALL` or `times N CALL`.
    pub fn parse(text: &str) -> anyhow::Result<Case> {
        let mut words = text.split_whitespace();
        let first = next_word(&mut words)?;
        if first != "times" {
            let ask = parse_ask(first, &mut words)?;
            return Ok(Case { times: 1, ask });
        }
        let times = next_number(&mut words)?;
        let ask = parse_ask(next_word(&mut words)?, &mut words)?;
        Ok(Case { times, ask })
    }

    // Asks the book so many times, once at least, and gives the last answer.
    pub fn put_to(&self, book: &mut Book) -> Told {
        for _ in 1..self.times {
            let _ = self.ask.put_to(book);
        }
        Told::from(self.ask.put_to(book))
    }
}

fn parse_ask(name: &str, words: &mut SplitWhitespace<'_>) -> anyhow::Result<Ask> {
    match name {
        "make" => Ok(Ask::Make(parse_call(next_word(words)?, words)?)),
        "balance" => Ok(Ask::Balance),
        "line" => Ok(Ask::Line(next_number(words)?)),
        "live" => Ok(Ask::Live(next_number(words)?)),
        "len" => Ok(Ask::Len),
        "in" => Ok(Ask::Total(Side::In, next_number(words)?)),
        "out" => Ok(Ask::Total(Side::Out, next_number(words)?)),
        "ins" => Ok(Ask::Totals(Side::In)),
        "outs" => Ok(Ask::Totals(Side::Out)),
        _ => Ok(Ask::Change(parse_call(name, words)?)),
    }
}

impl Ask {
    fn put_to(&self, book: &mut Book) -> Result<Reply, Fault> {
        match *self {
            Ask::Change(call) => change(book, call).map(Reply::Answer),
            Ask::Make(call) => book.make(call).map(Reply::Answer),
            Ask::Balance => book.balance().map(|_| Reply::Balanced),
            Ask::Line(number) => Ok(Reply::Line(book.line(number))),
            Ask::Live(number) => book.check_live(number).map(|_| Reply::Yes),
            Ask::Len => Ok(Reply::Number(book.len() as u32)),
            Ask::Total(side, account) => Ok(Reply::Number(book.total(side, account))),
            Ask::Totals(side) => Ok(Reply::Totals(book.totals(side))),
        }
    }
}

// Makes a change by the call of its own name, so that the cases try these calls and not `make` alone.
fn change(book: &mut Book, call: Call) -> Result<Answer, Fault> {
    match call {
        Call::Post { from, to, amount } => book.post(from, to, amount).map(Answer::Posted),
        Call::Amend { line, amount } => book.amend(line, amount).map(|_| Answer::Done),
        Call::Strike { line } => book.strike(line).map(|_| Answer::Done),
        Call::Clear => {
            book.clear();
            Ok(Answer::Done)
        }
    }
}
