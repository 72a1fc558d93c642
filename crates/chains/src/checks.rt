// The checks of a chain: each stops at its rows of the table of stops, in their order, or passes.
ghost use Rattle.std.specs.Prelude.{◌≡◌, ◌<◌, ◌≤◌, length, IfOk, None, OnOk};
ghost use Rattle.book.specs.Limits.{accounts, greatest_amount};
ghost use Rattle.book.specs.Lines.{lines};
ghost use Rattle.book.specs.Outcome.{Outcome, stopped};
ghost use Rattle.book.specs.Tally.{at, WellFormed};
ghost use Rattle.book.specs.Totals.{amount_of, Balanced, balance_stops};
ghost use Rattle.chains.specs.Faults.{checked};
ghost use Rattle.chains.specs.Stops.{length_stops, line_stops, lines_stops, chain_stopped};
ghost use Rattle.flow.specs.Chains.{longest_chain, from_of, to_of, Chain};

use crate::LONGEST_CHAIN;
use crate::faults::Fault;
use crate::line_parts::Parts;
use book::{Book, Line};

pub fn check_length(length: usize) -> Result<(), Fault>
    ensures stop { (o : Outcome) → checked result o ≡ stopped (length_stops length) o }
    ensures passed { OnOk result ((0 < length) × (length ≤ longest_chain)) }
{
    if length == 0 || length > LONGEST_CHAIN {
        return Err(Fault::Length(length));
    }
    Ok(())
}

// The accounts that a line leaves and enters, and its amount; nothing of these where the line is not live.
pub fn parts(book: &Book, line: u16) -> Parts
    ensures from { (result.from ≡ from_of (at (lines book.now) line)) × (result.from < accounts) }
    ensures to { result.to ≡ to_of (at (lines book.now) line) }
    ensures amount { (result.amount ≡ amount_of (at (lines book.now) line)) × (result.amount ≤ greatest_amount) }
{
    Parts::from(book.line(line).unwrap_or(Line::Struck))
}

// One line of a chain: it is live, and leaves the account that the line before it enters. Answers the account that it enters.
fn check_line(book: &Book, place: usize, before: Option<u8>, line: u16) -> Result<u8, Fault>
    ensures stop { (o : Outcome) → checked result o ≡ stopped (line_stops (lines book.now) place before line) o }
    ensures entered { IfOk result (λ to. to ≡ to_of (at (lines book.now) line)) }
{
    // not by map_err with `?`: tried, and the proof that the refusal carries the place did not close
    if let Err(fault) = book.check_live(line) {
        return Err(Fault::Line(place, fault));
    }
    let found = parts(book, line);
    if before.is_some_and(|account| account != found.from) {
        return Err(Fault::Gap(place));
    }
    Ok(found.to)
}

// Each line of a chain in turn.
fn check_lines(book: &Book, chain: &[u16]) -> Result<(), Fault>
    ensures { (o : Outcome) → checked result o ≡ stopped (lines_stops (lines book.now) 0 None chain.now) o }
{
    let mut before = None;
    for (place, line) in chain.iter().enumerate() {
        before = Some(check_line(book, place, before, *line)?);
    }
    Ok(())
}

// A chain that is handed to a question: its length, each of its lines, and the balance last.
pub fn check_chain(book: &Book, chain: &[u16]) -> Result<(), Fault>
    ensures stop { (o : Outcome) → checked result o ≡ chain_stopped (lines book.now) chain.now o }
    ensures passed { OnOk result (Chain (lines book.now) chain.now × Balanced (lines book.now) × WellFormed (lines book.now)) }
{
    check_length(chain.len())?;
    check_lines(book, chain)?;
    check_balance(book)
}

pub fn check_balance(book: &Book) -> Result<(), Fault>
    ensures stop { (o : Outcome) → checked result o ≡ stopped (balance_stops (lines book.now)) o }
    ensures passed { OnOk result (Balanced (lines book.now)) }
    ensures sound { WellFormed (lines book.now) }
{
    Ok(book.balance()?)
}
