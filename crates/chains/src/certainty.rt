// How much of a chain is certain.
ghost use Rattle.std.specs.Prelude.{◌≡◌, ℕ, ◌*◌, ◌^◌, ◌<◌, ◌≤◌, length, pos, neg_ℤ, ◌≤ℤ◌, IfOk, OnOk, slice_index};
ghost use Rattle.book.specs.Limits.{accounts, greatest_amount};
ghost use Rattle.book.specs.Lines.{lines};
ghost use Rattle.book.specs.Outcome.{Outcome};
ghost use Rattle.book.specs.Totals.{in_total};
ghost use Rattle.chains.specs.Certainty.{by_excess, Agreed};
ghost use Rattle.chains.specs.Faults.{checked};
ghost use Rattle.chains.specs.Stops.{chain_stopped};
ghost use Rattle.flow.specs.Chains.{longest_chain};
ghost use Rattle.flow.specs.Excess.{excess};

use crate::checks::{check_chain, parts};
use crate::faults::Fault;
use crate::line_parts::Parts;
use book::{ACCOUNTS, Book, Side};

// Held with so many tonnes, or loose by so many below zero. Not a Result: both are answers, and loose is no failure of the question.
#[derive(Clone, Copy)]
pub enum Certainty {
    Held(u64),
    Loose(u64),
}

// Held with the chain's excess when that is 1 or more, else loose with the tonnes by which it lies below zero.
pub fn certain(book: &Book, chain: &[u16]) -> Result<Certainty, Fault>
    ensures stop { (o : Outcome) → checked result o ≡ chain_stopped (lines book.now) chain.now o }
    ensures answer { IfOk result (λ a. a ≡ by_excess (excess (lines book.now) chain.now)) }
    ensures agreed { OnOk result (Agreed (lines book.now) chain.now) }
{
    check_chain(book, chain)?;
    let totals = book.totals(Side::In);
    Ok(judge(excess_of(book, &totals, chain)))
}

fn judge(excess: i64) -> Certainty
    ensures { result ≡ by_excess excess }
{
    if excess > 0 {
        Certainty::Held(excess.unsigned_abs())
    } else {
        Certainty::Loose(excess.unsigned_abs())
    }
}

// The excess of a chain, from that of the chain without its last line.
fn excess_of(book: &Book, totals: &[u32; ACCOUNTS], chain: &[u16]) -> i64
    requires totals { (a : ℕ) → a < accounts → slice_index totals.now a ≡ in_total (lines book.now) a }
    requires short { length chain.now ≤ longest_chain }
    ensures value { result ≡ excess (lines book.now) chain.now }
    ensures low { neg_ℤ (pos (2 ^ 32 * length chain.now)) ≤ℤ result }
    ensures high { result ≤ℤ pos (greatest_amount * length chain.now) }
{
    match chain {
        [] => 0,
        [only] => parts(book, *only).amount as i64,
        [front @ .., last] => {
            let before = excess_of(book, totals, front);
            let Parts { from, amount, .. } = parts(book, *last);
            let total = totals[from as usize];
            before + amount as i64 - total as i64
        }
    }
}
