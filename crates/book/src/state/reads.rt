// What is read off a book: its lines.
ghost use Rattle.std.specs.Prelude.{◌≡◌, ◌<◌, ◌≤◌, true, length, if◌then◌else◌, Some, None, OnOk, nat_lt};
ghost use Rattle.book.specs.Faults.{checked};
ghost use Rattle.book.specs.Limits.{most_lines};
ghost use Rattle.book.specs.Lines.{lines};
ghost use Rattle.book.specs.Outcome.{Outcome, stopped};
ghost use Rattle.book.specs.Tally.{at, is_live, line_stops, WellFormed};

use crate::entries::{Fault, Line};
use crate::state::Book;

impl Book {
    // How many lines are posted, struck ones too.
    pub fn len(&self) -> usize
        ensures count { result ≡ length (lines self.now) }
        ensures few { result ≤ most_lines }
        ensures sound { WellFormed (lines self.now) }
    {
        self.count
    }

    // The line of that number, where one is posted.
    pub fn line(&self, number: u16) -> Option<Line>
        ensures line { result ≡ (if nat_lt number (length (lines self.now)) then Some (at (lines self.now) number) else None) }
        ensures sound { WellFormed (lines self.now) }
    {
        let posted = &self.table.records[..self.count];
        let record = posted.get(number as usize)?;
        Some(Line::from(*record))
    }

    // Stops where no line of that number is posted, or it is struck.
    pub fn check_live(&self, line: u16) -> Result<(), Fault>
        ensures stop { (o : Outcome) → checked result o ≡ stopped (line_stops (lines self.now) line) o }
        ensures passed { OnOk result ((line < length (lines self.now)) × (is_live (at (lines self.now) line) ≡ true)) }
    {
        match self.line(line) {
            None => Err(Fault::NotPosted(line)),
            Some(Line::Struck) => Err(Fault::LineStruck(line)),
            Some(Line::Live { .. }) => Ok(()),
        }
    }
}
