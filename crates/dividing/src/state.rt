// A dividing under way.
ghost use Rattle.std.specs.Prelude.{◌≡◌, ℕ, ◌<◌, replicate, slice_index};
ghost use Rattle.book.specs.Limits.{accounts, most_lines};
ghost use Rattle.book.specs.Lines.{lines};
ghost use Rattle.book.specs.Tally.{WellFormed};
ghost use Rattle.book.specs.Totals.{in_total, out_total, Balanced};
ghost use Rattle.book.proofs.Props.{well_formed_prop};
ghost use Rattle.flow.proofs.Walks.{Fair};
ghost use Rattle.flow.specs.Dividing.{amounts};

use crate::left::put_amounts;
use crate::rules::Rule;
use book::{ACCOUNTS, Book, MOST_LINES};

mod rows;
mod sources;

// The book and the rule, the in-totals and the out-totals of all accounts, and the tonnes left on each line.
#[derive(Drop)]
pub struct Division<'a, R> {
    pub book: &'a Book,
    pub rule: &'a R,
    pub ins: &'a [u32; ACCOUNTS],
    pub outs: &'a [u32; ACCOUNTS],
    pub left: [u32; MOST_LINES],
    ghost sound: { WellFormed (lines book.now) } by { well_formed_prop (lines book.now) },
    ghost entering: { (a : ℕ) → a < accounts → slice_index ins.now a ≡ in_total (lines book.now) a },
    ghost leaving: { (a : ℕ) → a < accounts → slice_index outs.now a ≡ out_total (lines book.now) a },
    ghost fair: { Fair (lines book.now) left },
}

impl<R: Rule> Division<'_, R> {
    // Before its first row: the amounts of a balanced book's lines are left.
    pub fn begin(&mut self)
        requires nothing { self.old.left ≡ replicate most_lines 0 }
        requires balanced { Balanced (lines self.old.book.now) }
        ensures left { self.new.left ≡ amounts (lines self.old.book.now) }
        ensures book { self.new.book.now ≡ self.old.book.now }
        ensures rule { self.new.rule.now ≡ self.old.rule.now }
    {
        put_amounts(self.book, &mut self.left);
    }
}
