// The next greatest certain chain.
ghost use Rattle.std.specs.Prelude.{◌≡◌, ◌<◌, ◌≤◌, length, IfOk, OnOk};
ghost use Rattle.book.specs.Lines.{lines};
ghost use Rattle.book.specs.Outcome.{Outcome, stopped};
ghost use Rattle.book.specs.Tally.{WellFormed};
ghost use Rattle.book.specs.Totals.{Balanced};
ghost use Rattle.chains.specs.Faults.{checked};
ghost use Rattle.flow.specs.Chains.{longest_chain};
ghost use Rattle.listing.specs.Nexts.{after_stopped, next_stopped, Answered};
ghost use Rattle.listing.specs.Picks.{request_stops, Picked};

use crate::search::Search;
use arrayvec::ArrayVec;
use book::Book;
use chains::{Fault, LONGEST_CHAIN};

// The floor, the row's entries and the length handed to next.
fn check_request(floor: u32, entries: usize, given: usize) -> Result<(), Fault>
    ensures stop { (o : Outcome) → checked result o ≡ stopped (request_stops floor entries given) o }
    ensures passed { OnOk result ((0 < floor) × (longest_chain ≤ entries) × (given ≤ longest_chain)) }
{
    if floor == 0 {
        return Err(Fault::NoFloor);
    }
    if entries < LONGEST_CHAIN {
        return Err(Fault::TooSmall);
    }
    if given > LONGEST_CHAIN {
        return Err(Fault::Length(given));
    }
    Ok(())
}

// The first chain after the list that is greatest at the floor, with its certain figure.
pub fn next_after(
    book: &Book,
    floor: u32,
    given: &[u16],
) -> Result<Option<(ArrayVec<u16, LONGEST_CHAIN>, u64)>, Fault>
    ensures stop { (o : Outcome) → checked result o ≡ after_stopped (lines book.now) floor (length given.now) o }
    ensures answer { IfOk result (Picked (lines book.now) floor given.now) }
    ensures passed { OnOk result ((0 < floor) × Balanced (lines book.now) × WellFormed (lines book.now)) }
{
    // no row is handed over that could be too short
    check_request(floor, LONGEST_CHAIN, given.len())?;
    let search = Search::new(book, floor)?;
    Ok(search.first_greatest(given))
}

// Of the list that is the first entries of the row: the first chain after it that is greatest at the floor, written over the start of the row, by its
// length and its certain figure. The row is lent by the caller and its format is agreed, since next takes no heap; next_after hands the chain out as a value.
pub fn next(
    book: &Book,
    floor: u32,
    given: usize,
    row: &mut [u16],
) -> Result<Option<(usize, u64)>, Fault>
    ensures stop { (o : Outcome) → checked result o ≡ next_stopped (lines book.now) floor (length row.old) given o }
    ensures answer { Answered (lines book.now) floor given row.old result row.new }
    ensures passed { OnOk result ((0 < floor) × Balanced (lines book.now) × WellFormed (lines book.now)) }
{
    check_request(floor, row.len(), given)?;
    let Some((chain, figure)) = next_after(book, floor, &row[..given])? else {
        return Ok(None);
    };
    row[..chain.len()].copy_from_slice(&chain);
    Ok(Some((chain.len(), figure)))
}
