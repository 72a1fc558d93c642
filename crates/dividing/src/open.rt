// Which lines are open at an account: live, leaving it and with tonnes left.
ghost use Rattle.std.specs.Prelude.{◌≡◌, not, ◌&&◌, [], length, ◌==◌, slice_index};
ghost use Rattle.book.specs.Lines.{lines};
ghost use Rattle.book.specs.Search.{lowest_of};
ghost use Rattle.book.specs.Tally.{at};
ghost use Rattle.book.specs.Totals.{leaves};
ghost use Rattle.flow.specs.Rules.{is_open, lowest, widest};

use book::{Book, Line, MOST_LINES};

// Whether the line of that number is live and leaves the account.
pub fn line_leaves(book: &Book, line: u16, account: u8) -> bool
    ensures { result ≡ leaves account (at (lines book.now) line) }
{
    matches!(book.line(line), Some(Line::Live { from, .. }) if from == account)
}

// The lines of a book that are open at an account, by the tonnes left on each line.
#[derive(Clone, Copy)]
pub struct OpenLines<'a> {
    pub book: &'a Book,
    pub left: &'a [u32; MOST_LINES],
    pub account: u8,
}

impl OpenLines<'_> {
    // The tonnes left on the line of that number.
    pub fn tonnes_on(&self, line: u16) -> u32
        ensures { result ≡ slice_index self.now.left.now line }
    {
        let left = self.left;
        left.get(line as usize).copied().unwrap_or(0)
    }

    // Whether the line of that number is open.
    pub fn is_open(&self, line: u16) -> bool
        ensures { result ≡ is_open (lines self.now.book.now) self.now.left.now self.now.account line }
    {
        self.tonnes_on(line) > 0 && line_leaves(self.book, line, self.account)
    }

    // The lowest open line; 0 where none is open, since a rule always names a number.
    pub fn lowest(&self) -> u16
        ensures { result ≡ lowest (lines self.now.book.now) self.now.left.now self.now.account [] }
    {
        (0..self.book.len() as u16)
            .find(|line| self.is_open(*line))
            .unwrap_or(0)
    }

    // The lowest open line other than the one given; that one where no other is open.
    pub fn lowest_other(&self, line: u16) -> u16
        ensures { result ≡ lowest_of (λ m. is_open (lines self.now.book.now) self.now.left.now self.now.account m && not (m == line)) line 0 (length (lines self.now.book.now)) }
    {
        (0..self.book.len() as u16)
            .find(|other| *other != line && self.is_open(*other))
            .unwrap_or(line)
    }

    // The open line with the most tonnes left, the lowest among equals; 0 where none is open. The best so far and its tonnes stand side by side: max_by_key
    // would take the highest among equals, and a rule always names a number.
    pub fn widest(&self) -> u16
        ensures { result ≡ widest (lines self.now.book.now) self.now.left.now self.now.account [] }
    {
        let left = self.left;
        let mut best = 0;
        let mut most = 0;
        for (n, tonnes) in left[0..self.book.len()].iter().enumerate() {
            if *tonnes > most && line_leaves(self.book, n as u16, self.account) {
                best = n as u16;
                most = *tonnes;
            }
        }
        best
    }
}
