// The tonnes left on each line: at first the amounts, and what remains after a row.
ghost use Rattle.std.specs.Prelude.{◌≡◌, replicate};
ghost use Rattle.std.specs.List.{AllByRecursion};
ghost use Rattle.book.specs.Lines.{lines};
ghost use Rattle.book.specs.Limits.{most_lines};
ghost use Rattle.book.specs.Tally.{WellFormed};
ghost use Rattle.flow.proofs.Infix.{Apart};
ghost use Rattle.flow.proofs.TonnesLeft.{Bears};
ghost use Rattle.flow.specs.Dividing.{amounts, off};

use book::{Book, MOST_LINES};
use chains::parts;

// Puts the amount of each line where there was nothing: 0 stays where the line is not live. In place and by a loop over the lines posted: a small book is divided
// many times in one statement, and an array for all that a book can have is not to be filled and moved each time.
pub fn put_amounts(book: &Book, left: &mut [u32; MOST_LINES])
    requires { left.old ≡ replicate most_lines 0 }
    ensures amounts { left.new ≡ amounts (lines book.now) }
    ensures sound { WellFormed (lines book.now) }
{
    for n in 0..book.len() {
        left[n] = parts(book, n as u16).amount;
    }
}

// Takes tonnes off each line of a row, whose lines differ and bear so many.
pub fn take_off(left: &mut [u32; MOST_LINES], tonnes: u32, row: &[u16])
    requires { (Apart row.now) × (AllByRecursion (Bears left.old tonnes) row.now) }
    ensures { left.new ≡ off left.old tonnes row.now }
{
    for line in row {
        left[*line as usize] -= tonnes;
    }
}
