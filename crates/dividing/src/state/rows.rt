// One row: the walk from an account under the rule, and its tonnes.
ghost use Rattle.std.specs.Prelude.{◌≡◌, ℕ, ◌*◌, ◌<◌, ◌≤◌, length};
ghost use Rattle.book.specs.Limits.{most_lines};
ghost use Rattle.book.specs.Lines.{lines};
ghost use Rattle.dividing.specs.Rows.{Followed, Walked, NextPut};
ghost use Rattle.dividing.specs.Sources.{LowestSource};
ghost use Rattle.dividing.specs.Tables.{row_stride, table_entries};
ghost use Rattle.flow.specs.Rules.{Open};

use crate::ROW_STRIDE;
use crate::left::take_off;
use crate::rules::Rule;
use crate::state::Division;
use arrayvec::ArrayVec;
use chains::{LONGEST_CHAIN, parts};

// The line that the rule names at an account, the account that this line enters and its tonnes left.
#[derive(Clone, Copy)]
struct Step {
    line: u16,
    to: u8,
    tonnes: u32,
}

// The lines of a walk, and the least tonnes left along it.
#[derive(Drop)]
struct Walk {
    lines: ArrayVec<u16, LONGEST_CHAIN>,
    least: u32,
}

impl<R: Rule> Division<'_, R> {
    // Asks the rule at an account that has an open line.
    fn follow(&self, account: u8, walked: &[u16]) -> Step
        requires { (n : ℕ) × Open (lines self.now.book.now) self.now.left account n }
        ensures { Followed (R.choice self.now.rule.now) (lines self.now.book.now) self.now.left account walked.now result.line result.to result.tonnes }
    {
        let line = self.rule.name(self.book, &self.left, account, walked);
        Step {
            line,
            to: parts(self.book, line).to,
            tonnes: self.left[line as usize],
        }
    }

    // Walks from an account to an end account.
    fn walk(&self, start: u8) -> Walk
        requires { LowestSource (lines self.now.book.now) self.now.left start }
        ensures { Walked (R.choice self.now.rule.now) (lines self.now.book.now) self.now.left start result.lines.items result.least }
    {
        let mut account = start;
        let mut lines = ArrayVec::new();
        let mut least = u32::MAX;
        while self.outs[account as usize] > 0 {
            let step = self.follow(account, lines.as_slice());
            lines.push(step.line);
            least = least.min(step.tonnes);
            account = step.to;
        }
        Walk { lines, least }
    }

    // Writes the next row into its entries, and takes its tonnes off its lines. Answers the tonnes; none where nothing is left on any line.
    // The entries are lent by the caller, in the format of the tables: the length first, then the lines.
    fn put_row(&mut self, row: &mut [u16]) -> Option<u32>
        requires { length row.old ≡ row_stride }
        ensures row { NextPut (R.choice self.old.rule.now) (lines self.old.book.now) self.old.left 0 row.old result self.new.left row.new }
        ensures book { self.new.book.now ≡ self.old.book.now }
        ensures rule { self.new.rule.now ≡ self.old.rule.now }
    {
        let start = self.next_source()?;
        let walk = self.walk(start);
        let lines = walk.lines.as_slice();
        row[0] = lines.len() as u16;
        row[1..lines.len() + 1].copy_from_slice(lines);
        take_off(&mut self.left, walk.least, lines);
        Some(walk.least)
    }

    // Writes the next row as the one of that number into the table of rows.
    pub fn put_numbered(&mut self, number: usize, rows: &mut [u16]) -> Option<u32>
        requires { (number < most_lines) × (table_entries ≤ length rows.old) }
        ensures row { NextPut (R.choice self.old.rule.now) (lines self.old.book.now) self.old.left (row_stride * number) rows.old result self.new.left rows.new }
        ensures book { self.new.book.now ≡ self.old.book.now }
        ensures rule { self.new.rule.now ≡ self.old.rule.now }
    {
        let at = ROW_STRIDE * number;
        self.put_row(&mut rows[at..at + ROW_STRIDE])
    }
}
