// The checks of a book's calls: each stops at its rows of the table of stops, in their order, or passes.
ghost use Rattle.std.specs.Prelude.{◌≡◌, ◌<◌, ◌≤◌, OnOk};
ghost use Rattle.book.specs.Faults.{checked};
ghost use Rattle.book.specs.Limits.{most_lines, highest_account, greatest_amount};
ghost use Rattle.book.specs.Outcome.{Outcome, stopped};
ghost use Rattle.book.specs.Tally.{amount_stops, place_stops};

use crate::entries::Fault;
use crate::{GREATEST_AMOUNT, HIGHEST_ACCOUNT, MOST_LINES};

pub fn check_amount(amount: u32) -> Result<(), Fault>
    ensures stop { (o : Outcome) → checked result o ≡ stopped (amount_stops amount) o }
    ensures passed { OnOk result ((0 < amount) × (amount ≤ greatest_amount)) }
{
    if amount == 0 || amount > GREATEST_AMOUNT {
        return Err(Fault::AmountOutOfLimits(amount));
    }
    Ok(())
}

// Of a line that is to be posted as the one of the number `count`, all but its amount.
pub fn check_place(count: usize, from: u8, to: u8) -> Result<(), Fault>
    ensures stop { (o : Outcome) → checked result o ≡ stopped (place_stops count from to) o }
    ensures passed { OnOk result ((count < most_lines) × (from < to) × (to ≤ highest_account)) }
{
    if count >= MOST_LINES {
        return Err(Fault::Full);
    }
    if from > HIGHEST_ACCOUNT {
        return Err(Fault::AccountTooHigh(from));
    }
    if to > HIGHEST_ACCOUNT {
        return Err(Fault::AccountTooHigh(to));
    }
    if from >= to {
        return Err(Fault::NotUpward);
    }
    Ok(())
}
