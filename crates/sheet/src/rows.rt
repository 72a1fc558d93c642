// The rows of a dividing in the lent tables: two, as the public divide fills them.
ghost use Rattle.std.specs.Prelude.{◌≡◌, ◌*◌, ◌<◌, ◌≤◌, length, codes, slice_index};
ghost use Rattle.book.specs.Limits.{most_lines};
ghost use Rattle.book.specs.Lines.{lines};
ghost use Rattle.book.specs.Outcome.{Outcome};
ghost use Rattle.chains.specs.Faults.{checked};
ghost use Rattle.dividing.specs.Filling.{Answered};
ghost use Rattle.dividing.specs.Tables.{row_stride, table_tonnes, divide_stopped};
ghost use Rattle.flow.specs.Chains.{longest_chain};
ghost use Rattle.sheet.specs.Page.{Put};
ghost use Rattle.sheet.specs.Rows.{row_in};
ghost use Rattle.sheet.specs.Statements.{text_line, chain_text, rule_of};
ghost use Rattle.std.specs.List.{AllByRecursion};

use crate::SHORTEST_PAGE;
use crate::text::say_chain;
use book::Book;
use chains::Fault as ChainFault;
use dividing::{Lowest, ROW_STRIDE, TABLE_ENTRIES, TABLE_TONNES, Widest, divide};

// Divides under rule 0 or rule 1; the rule is a byte, as the public format of a sheet has it.
pub fn divide_by(
    book: &Book,
    rule: u8,
    rows: &mut [u16; TABLE_ENTRIES],
    tonnes: &mut [u32; TABLE_TONNES],
) -> Result<usize, ChainFault>
    ensures stop { (o : Outcome) → checked result o ≡ divide_stopped (lines book.now) (length rows.old) (length tonnes.old) o }
    ensures filled { Answered (rule_of rule) (lines book.now) rows.old tonnes.old result rows.new tonnes.new }
{
    match rule {
        0 => divide(book, &Lowest, rows, tonnes),
        _ => divide(book, &Widest, rows, tonnes),
    }
}

// Prints a row of the tables.
pub fn say_row(
    page: &mut [u8; SHORTEST_PAGE],
    rows: &[u16; TABLE_ENTRIES],
    tonnes: &[u32; TABLE_TONNES],
    row: usize,
) -> usize
    requires within { row < table_tonnes }
    requires short { slice_index rows.now (row_stride * row) ≤ longest_chain }
    requires posted { AllByRecursion (λ n. n < most_lines) (row_in rows.now row) }
    ensures { Put page.old 0 (text_line (chain_text (codes "take ") (slice_index tonnes.now row) (row_in rows.now row))) page.new result }
{
    let start = ROW_STRIDE * row;
    let lines = rows[start] as usize;
    let first = start + 1;
    say_chain(
        page,
        b"take ",
        tonnes[row] as u64,
        &rows[first..first + lines],
    )
}
