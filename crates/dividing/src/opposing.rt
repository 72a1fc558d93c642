// Dividing against a chain: as few tonnes on it as any split puts there.
ghost use Rattle.std.specs.Prelude.{◌≡◌, List, length, OnOk};
ghost use Rattle.book.specs.Lines.{lines};
ghost use Rattle.book.specs.Outcome.{Outcome};
ghost use Rattle.chains.specs.Faults.{checked};
ghost use Rattle.dividing.specs.Filling.{Answered, Opposed};
ghost use Rattle.dividing.specs.Tables.{counter_stopped};
ghost use Rattle.flow.specs.Dividing.{Dividing};
ghost use Rattle.flow.specs.Rules.{avoiding};
ghost use Rattle.flow.specs.Splits.{Row};

use crate::avoiding::Avoiding;
use crate::division::fill;
use crate::tables::check_tables;
use book::Book;
use chains::{Fault, check_chain};

// Divides a balanced book under the rule that avoids the chain, and answers how many rows there are.
pub fn counter(
    book: &Book,
    chain: &[u16],
    rows: &mut [u16],
    tonnes: &mut [u32],
) -> Result<usize, Fault>
    ensures stop { (o : Outcome) → checked result o ≡ counter_stopped (lines book.now) chain.now (length rows.old) (length tonnes.old) o }
    ensures filled { Answered (avoiding chain.now) (lines book.now) rows.old tonnes.old result rows.new tonnes.new }
    ensures opposed { OnOk result ((rs : List Row) → Dividing (avoiding chain.now) (lines book.now) rs → Opposed (lines book.now) chain.now rs) }
{
    check_tables(rows.len(), tonnes.len())?;
    check_chain(book, chain)?;
    let rule = Avoiding::new(chain);
    Ok(fill(book, &rule, rows, tonnes))
}
