// Commands that change the book, obeyed: each prints its line, or its refusal.
ghost use Rattle.std.specs.Prelude.{◌≡◌, ◌≤◌, ◌++◌, length, codes, decimal, MatchResult};
ghost use Rattle.book.specs.Faults.{number, carries};
ghost use Rattle.book.specs.Lines.{lines};
ghost use Rattle.book.specs.Outcome.{book as book_layer};
ghost use Rattle.book.specs.Tally.{outcome, after};
ghost use Rattle.book.specs.declared.entries.Call.TheVariants.{Post, Amend, Strike};
ghost use Rattle.sheet.specs.Page.{Put};
ghost use Rattle.sheet.specs.Statements.{text_line, refusal_text, reported};

use crate::SHORTEST_PAGE;
use crate::text::{say_book_refusal, say_number};
use book::{Book, Fault};

pub fn post(
    book: &mut Book,
    from: u8,
    to: u8,
    amount: u32,
    place: usize,
    page: &mut [u8; SHORTEST_PAGE],
) -> usize
    ensures lines { lines book.new ≡ after (lines book.old) (Post from to amount) }
    ensures page { Put page.old 0 (text_line (reported (outcome (lines book.old) (Post from to amount)) place (codes "line " ++ decimal (length (lines book.old))))) page.new result }
{
    report(page, b"line ", book.post(from, to, amount), place)
}

pub fn amend(
    book: &mut Book,
    line: u16,
    amount: u32,
    place: usize,
    page: &mut [u8; SHORTEST_PAGE],
) -> usize
    ensures lines { lines book.new ≡ after (lines book.old) (Amend line amount) }
    ensures page { Put page.old 0 (text_line (reported (outcome (lines book.old) (Amend line amount)) place (codes "amended " ++ decimal line))) page.new result }
{
    report(
        page,
        b"amended ",
        book.amend(line, amount).map(|_| line),
        place,
    )
}

pub fn strike(book: &mut Book, line: u16, place: usize, page: &mut [u8; SHORTEST_PAGE]) -> usize
    ensures lines { lines book.new ≡ after (lines book.old) (Strike line) }
    ensures page { Put page.old 0 (text_line (reported (outcome (lines book.old) (Strike line)) place (codes "struck " ++ decimal line))) page.new result }
{
    report(page, b"struck ", book.strike(line).map(|_| line), place)
}

// Prints the words and the line's number that a call answered, or its refusal.
fn report(
    page: &mut [u8; SHORTEST_PAGE],
    words: &[u8],
    answer: Result<u16, Fault>,
    place: usize,
) -> usize
    requires { length words.now ≤ 16 }
    ensures { MatchResult answer (λ line. Put page.old 0 (text_line (words.now ++ decimal line)) page.new result) (λ fault. Put page.old 0 (text_line (refusal_text book_layer (number fault) (carries fault) place)) page.new result) }
{
    match answer {
        Ok(line) => say_number(page, words, line as usize),
        Err(fault) => say_book_refusal(page, &fault, place),
    }
}
