// Cases: what one line of text asks of a book, and what is answered.
use crate::divisions::{Divided, fill_tables};
use crate::lists::{List, listed};
use crate::rows::{Stepped, laid_next, next_after_list};
use crate::rules::{named, named_avoiding};
use book::Book;
use case_words::{Change, Reply, Tables, Told, next_number, next_word};
use dividing::{TABLE_ENTRIES, TABLE_TONNES};
use std::alloc::Global;
use std::fmt;

#[derive(Drop)]
pub enum Answered {
    Told(Told),
    Divided(Divided),
    Stepped(Stepped),
    List(List),
    Named(u16),
}

impl fmt::Display for Answered {
    fn fmt<W: fmt::Write>(&self, f: &mut fmt::Formatter<W>) -> fmt::Result {
        match self {
            Answered::Told(told) => write!(f, "{told}"),
            Answered::Divided(divided) => write!(f, "{divided}"),
            Answered::Stepped(stepped) => write!(f, "{stepped}"),
            Answered::List(list) => write!(f, "{list}"),
            Answered::Named(line) => write!(f, "{line}"),
        }
    }
}

// A question, `tables ENTRIES TONNES` before a question, the balance, or a change.
pub fn answer_case(heap: Global, book: &mut Book, text: &str) -> anyhow::Result<Answered> {
    let mut words = text.split_whitespace();
    match next_word(&mut words)? {
        "tables" => {
            let entries = next_number(&mut words)?;
            let tonnes = next_number(&mut words)?;
            let tables = Tables::new(heap, entries, tonnes)?;
            let name = next_word(&mut words)?;
            fill_tables(heap, book, name, words, tables).map(Answered::Divided)
        }
        "row" => laid_next(heap, book, words).map(Answered::Stepped),
        "next" => next_after_list(heap, book, words).map(Answered::Stepped),
        "list" => listed(heap, book, next_number(&mut words)?).map(Answered::List),
        "name" => named(heap, book, text).map(Answered::Named),
        "pass" => named_avoiding(heap, book, text).map(Answered::Named),
        "balance" => {
            let balance = book.balance().map(|_| Reply::Balanced);
            Ok(Answered::Told(Told::from(balance)))
        }
        name @ ("divide" | "counter" | "avoid") => {
            let tables = Tables::new(heap, TABLE_ENTRIES, TABLE_TONNES)?;
            fill_tables(heap, book, name, words, tables).map(Answered::Divided)
        }
        name => {
            let change = Change::parse(name, &mut words)?;
            Ok(Answered::Told(Told::from(change.make(book))))
        }
    }
}
