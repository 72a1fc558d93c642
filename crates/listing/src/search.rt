// A search for the certain chains of a book, in their order.
ghost use Rattle.std.specs.Prelude.{◌≡◌, ℕ, ◌<◌, slice_index};
ghost use Rattle.book.specs.Limits.{accounts};
ghost use Rattle.book.specs.Lines.{lines};
ghost use Rattle.book.specs.Tally.{WellFormed};
ghost use Rattle.book.specs.Totals.{in_total, Balanced};
ghost use Rattle.book.proofs.Props.{well_formed_prop};

use book::{ACCOUNTS, Book};

mod greatest;
mod growth;
mod opening;
mod steps;

// A balanced book with its in-totals, by account, and the floor.
#[derive(Drop)]
pub struct Search<'a> {
    book: &'a Book,
    totals: [u32; ACCOUNTS],
    floor: u32,
    ghost known: { (a : ℕ) → a < accounts → slice_index totals a ≡ in_total (lines book.now) a },
    ghost some: { 0 < floor },
    ghost balanced: { Balanced (lines book.now) },
    ghost sound: { WellFormed (lines book.now) } by { well_formed_prop (lines book.now) },
}
