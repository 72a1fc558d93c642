// The last chain listed: where a list goes on.
ghost use Rattle.std.specs.Prelude.{◌≡◌};
ghost use Rattle.book.specs.Lines.{lines};
ghost use Rattle.book.specs.Outcome.{Outcome};
ghost use Rattle.chains.specs.Faults.{checked};
ghost use Rattle.sheet.specs.LastChains.{Moved};
ghost use Rattle.sheet.specs.Statements.{list_stopped};

use arrayvec::ArrayVec;
use book::Book;
use chains::{Fault as ChainFault, LONGEST_CHAIN};
use listing::next_after;

// Goes to the next chain of the list and answers its figure, or nothing where there is none.
pub fn go_to_next(
    last: &mut ArrayVec<u16, LONGEST_CHAIN>,
    book: &Book,
    floor: u32,
) -> Result<Option<u64>, ChainFault>
    ensures stop { (o : Outcome) → checked result o ≡ list_stopped (lines book.now) floor o }
    ensures moved { Moved (lines book.now) floor last.old.items result last.new.items }
{
    let Some((chain, figure)) = next_after(book, floor, last.as_slice())? else {
        return Ok(None);
    };
    *last = chain;
    Ok(Some(figure))
}
