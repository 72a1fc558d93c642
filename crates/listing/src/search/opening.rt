// A search as it begins.
ghost use Rattle.std.specs.Prelude.{◌≡◌, ◌<◌, IfOk};
ghost use Rattle.book.specs.Lines.{lines};
ghost use Rattle.book.specs.Outcome.{Outcome, stopped};
ghost use Rattle.book.specs.Totals.{balance_stops};
ghost use Rattle.chains.specs.Faults.{checked};

use crate::search::Search;
use book::{Book, Side};
use chains::{Fault, check_balance};

impl<'a> Search<'a> {
    // A search of the book, where it balances.
    pub fn new(book: &'a Book, floor: u32) -> Result<Search<'a>, Fault>
        requires { 0 < floor }
        ensures stop { (o : Outcome) → checked result o ≡ stopped (balance_stops (lines book.now)) o }
        ensures begun { IfOk result (λ s. (s.book.now ≡ book.now) × (s.floor ≡ floor)) }
    {
        check_balance(book)?;
        Ok(Search {
            book,
            totals: book.totals(Side::In),
            floor,
        })
    }
}
