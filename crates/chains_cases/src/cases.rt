// Cases: what one line of text asks of a book and of its chains.
use book::Book;
use case_words::{Change, Reply, Told, line_numbers, next_word};
use chains::certain;
use std::alloc::Global;

// Reads a question or a change, and puts it to the book.
pub fn answer_case(heap: Global, book: &mut Book, text: &str) -> anyhow::Result<Told> {
    let mut words = text.split_whitespace();
    match next_word(&mut words)? {
        "certain" => {
            let chain = line_numbers(heap, words)?;
            Ok(Told::from(certain(book, &chain)))
        }
        "balance" => Ok(Told::from(book.balance().map(|_| Reply::Balanced))),
        name => {
            let change = Change::parse(name, &mut words)?;
            Ok(Told::from(change.make(book)))
        }
    }
}
