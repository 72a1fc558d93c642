// The totals of a book's accounts, and whether they balance.
ghost use Rattle.std.specs.Prelude.{◌≡◌, ℕ, ◌*◌, ◌<◌, ◌≤◌, slice_index};
ghost use Rattle.book.specs.Faults.{checked};
ghost use Rattle.book.specs.Limits.{most_lines, greatest_amount, accounts};
ghost use Rattle.book.specs.Lines.{lines};
ghost use Rattle.book.specs.Outcome.{Outcome, stopped};
ghost use Rattle.book.specs.Tally.{WellFormed};
ghost use Rattle.book.specs.Totals.{side_total, Balances, balance_stops, Compared};

use crate::entries::Fault;
use crate::state::Book;
use crate::table::Side;
use crate::{ACCOUNTS, HIGHEST_ACCOUNT};

impl Book {
    // The sum of the live lines entering the account, or of those leaving it.
    pub fn total(&self, side: Side, account: u8) -> u32
        ensures { result ≡ side_total side (lines self.now) account }
    {
        if account > HIGHEST_ACCOUNT {
            return 0;
        }
        self.totals(side)[account as usize]
    }

    // The in-totals, or the out-totals, of all accounts, by account.
    pub fn totals(&self, side: Side) -> [u32; ACCOUNTS]
        ensures totals { (a : ℕ) → a < accounts → slice_index result a ≡ side_total side (lines self.now) a }
        ensures bound { (a : ℕ) → a < accounts → slice_index result a ≤ most_lines * greatest_amount }
    {
        let mut sums = [0u32; ACCOUNTS];
        for record in &self.table.records[..self.count] {
            if record.live {
                sums[record.account(side) as usize] += record.amount;
            }
        }
        sums
    }

    // Yes, or the lowest account with live lines on both sides whose totals differ.
    pub fn balance(&self) -> Result<(), Fault>
        ensures answer { Balances (lines self.now) result }
        ensures stop { (o : Outcome) → checked result o ≡ stopped (balance_stops (lines self.now)) o }
        ensures sound { WellFormed (lines self.now) }
    {
        compare(&self.totals(Side::In), &self.totals(Side::Out))
    }
}

// By a loop, and not by a search over both arrays: the compiler compares four accounts at once here, and every question about a small book spends most of its
// time on this.
fn compare(ins: &[u32; ACCOUNTS], outs: &[u32; ACCOUNTS]) -> Result<(), Fault>
    ensures { Compared ins.now outs.now result }
{
    for a in 0..ACCOUNTS {
        let entering = ins[a];
        let leaving = outs[a];
        if entering > 0 && leaving > 0 && entering != leaving {
            return Err(Fault::Unbalanced(a as u8, entering, leaving));
        }
    }
    Ok(())
}
