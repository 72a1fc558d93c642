// Dividing a book under a rule into the tables: two slices side by side, lent by the caller, since dividing takes no heap and their format is agreed.
ghost use Rattle.std.specs.Prelude.{◌≡◌, ◌≤◌, length};
ghost use Rattle.book.specs.Lines.{lines};
ghost use Rattle.book.specs.Outcome.{Outcome};
ghost use Rattle.book.specs.Tally.{WellFormed};
ghost use Rattle.book.specs.Totals.{Balanced};
ghost use Rattle.chains.specs.Faults.{checked};
ghost use Rattle.dividing.specs.Filling.{Filled, Answered};
ghost use Rattle.dividing.specs.Tables.{table_entries, table_tonnes, divide_stopped};

use crate::rules::Rule;
use crate::state::Division;
use crate::tables::check_tables;
use book::{Book, MOST_LINES, Side};
use chains::{Fault, check_balance};

// Writes the rows of the dividing into the tables, and answers how many there are: one for each line of a book at most. The loop counts rows and
// not entries: a row's number is where it stands in both tables, and the last number is what is answered.
pub fn fill<R: Rule>(book: &Book, rule: &R, rows: &mut [u16], tonnes: &mut [u32]) -> usize
    requires room { (table_entries ≤ length rows.old) × (table_tonnes ≤ length tonnes.old) }
    requires sound { WellFormed (lines book.now) }
    requires balanced { Balanced (lines book.now) }
    ensures { Filled (R.choice rule.now) (lines book.now) rows.old tonnes.old result rows.new tonnes.new }
{
    if book.len() == 0 {
        return 0;
    }
    let ins = book.totals(Side::In);
    let outs = book.totals(Side::Out);
    let mut division = Division {
        book,
        rule,
        ins: &ins,
        outs: &outs,
        left: [0; MOST_LINES],
    };
    division.begin();
    for number in 0..MOST_LINES {
        let Some(weight) = division.put_numbered(number, rows) else {
            return number;
        };
        tonnes[number] = weight;
    }
    MOST_LINES
}

// Divides a balanced book under the rule into the tables, and answers how many rows there are.
pub fn divide<R: Rule>(
    book: &Book,
    rule: &R,
    rows: &mut [u16],
    tonnes: &mut [u32],
) -> Result<usize, Fault>
    ensures stop { (o : Outcome) → checked result o ≡ divide_stopped (lines book.now) (length rows.old) (length tonnes.old) o }
    ensures filled { Answered (R.choice rule.now) (lines book.now) rows.old tonnes.old result rows.new tonnes.new }
{
    check_tables(rows.len(), tonnes.len())?;
    check_balance(book)?;
    Ok(fill(book, rule, rows, tonnes))
}
