// The calls that change a book.
ghost use Rattle.std.specs.Prelude.{◌≡◌, ℕ, ◌<◌, ◌≤◌, [], ◌∷◌, ◌++◌, length, slice_set};
ghost use Rattle.book.specs.Faults.{posted, done, told};
ghost use Rattle.book.specs.Limits.{most_lines, highest_account, greatest_amount};
ghost use Rattle.book.specs.Lines.{lines};
ghost use Rattle.book.specs.Tally.{at, with_amount, outcome, after};
ghost use Rattle.book.specs.declared.entries.Call.TheVariants.{Post, Amend, Strike, Clear};
ghost use Rattle.book.specs.declared.entries.Line.TheVariants.{Live, Struck};

use crate::MOST_LINES;
use crate::checks::{check_amount, check_place};
use crate::entries::{Answer, Call, Fault};
use crate::state::Book;
use crate::table::{Record, Table};

impl Book {
    // A clean book.
    pub fn new() -> Book
        ensures { lines result ≡ [] }
    {
        let blank = Record {
            from: 0,
            to: 0,
            amount: 0,
            live: false,
        };
        Book {
            table: Table {
                records: [blank; MOST_LINES],
            },
            count: 0,
        }
    }

    // Adds a line, and answers its number.
    pub fn post(&mut self, from: u8, to: u8, amount: u32) -> Result<u16, Fault>
        ensures answer { posted result ≡ outcome (lines self.old) (Post from to amount) }
        ensures lines { lines self.new ≡ after (lines self.old) (Post from to amount) }
    {
        check_place(self.len(), from, to)?;
        check_amount(amount)?;
        Ok(self.append(from, to, amount))
    }

    fn append(&mut self, from: u8, to: u8, amount: u32) -> u16
        requires room { length (lines self.old) < most_lines }
        requires placed { (from < to) × (to ≤ highest_account) }
        requires sized { (0 < amount) × (amount ≤ greatest_amount) }
        ensures number { result ≡ length (lines self.old) }
        ensures lines { lines self.new ≡ lines self.old ++ Live from to amount ∷ [] }
    {
        let number = self.count;
        let record = Record {
            from,
            to,
            amount,
            live: true,
        };
        self.table.put(number, record);
        self.count = number + 1;
        number as u16
    }

    // Gives a live line another amount.
    pub fn amend(&mut self, line: u16, amount: u32) -> Result<(), Fault>
        ensures answer { done result ≡ outcome (lines self.old) (Amend line amount) }
        ensures lines { lines self.new ≡ after (lines self.old) (Amend line amount) }
    {
        self.check_live(line)?;
        check_amount(amount)?;
        self.revalue(line, amount);
        Ok(())
    }

    fn revalue(&mut self, line: u16, amount: u32)
        requires posted { line < length (lines self.old) }
        requires sized { (0 < amount) × (amount ≤ greatest_amount) }
        ensures { lines self.new ≡ slice_set (lines self.old) line (with_amount amount (at (lines self.old) line)) }
    {
        self.table.revalue(line as usize, amount);
    }

    // Makes a live line struck.
    pub fn strike(&mut self, line: u16) -> Result<(), Fault>
        ensures answer { done result ≡ outcome (lines self.old) (Strike line) }
        ensures lines { lines self.new ≡ after (lines self.old) (Strike line) }
    {
        self.check_live(line)?;
        self.retire(line);
        Ok(())
    }

    fn retire(&mut self, line: u16)
        requires { line < length (lines self.old) }
        ensures { lines self.new ≡ slice_set (lines self.old) line Struck }
    {
        self.table.retire(line as usize);
    }

    // Empties the book, which is then clean like a new one.
    pub fn clear(&mut self)
        ensures { lines self.new ≡ after (lines self.old) Clear }
    {
        self.count = 0;
    }

    // Makes one call.
    pub fn make(&mut self, call: Call) -> Result<Answer, Fault>
        ensures answer { told result ≡ outcome (lines self.old) call }
        ensures lines { lines self.new ≡ after (lines self.old) call }
    {
        match call {
            Call::Post { from, to, amount } => self.post(from, to, amount).map(Answer::Posted),
            Call::Amend { line, amount } => self.amend(line, amount).map(|_| Answer::Done),
            Call::Strike { line } => self.strike(line).map(|_| Answer::Done),
            Call::Clear => {
                self.clear();
                Ok(Answer::Done)
            }
        }
    }
}
