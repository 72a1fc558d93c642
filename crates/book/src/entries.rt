// What a book holds and what it is told and answers: lines, calls, answers and faults.
ghost use Rattle.std.specs.Prelude.{◌≡◌};
ghost use Rattle.book.specs.Faults.{number};

// A line of the book, by its number's place. Tonnes go from the account `from` to the account `to`. Not an Option: a struck line says that it
// is struck, and reading a number answers an Option of a line already.
#[derive(Clone, Copy)]
pub enum Line {
    Live { from: u8, to: u8, amount: u32 },
    Struck,
}

// Why a call was refused.
#[derive(Clone, Copy)]
pub enum Fault {
    // as many lines as a book takes are posted already
    Full,
    // the account is above the highest
    AccountTooHigh(u8),
    // the line would not go from a lower to a higher account
    NotUpward,
    // the amount is 0 or above the greatest
    AmountOutOfLimits(u32),
    // no line of that number is posted
    NotPosted(u16),
    // the line of that number is struck
    LineStruck(u16),
    // the lowest account whose totals differ, with its in-total and its out-total
    Unbalanced(u8, u32, u32),
}

impl Fault {
    // The refusal's number. By name and not by From: a fault has a layer and values, too, and a bare u8 would not say which it is.
    pub fn number(&self) -> u8
        ensures { result ≡ number self.now }
    {
        match self {
            Fault::Full => 1,
            Fault::AccountTooHigh(_) => 2,
            Fault::NotUpward => 3,
            Fault::AmountOutOfLimits(_) => 4,
            Fault::NotPosted(_) => 5,
            Fault::LineStruck(_) => 6,
            Fault::Unbalanced(_, _, _) => 7,
        }
    }
}

// A call that changes a book.
#[derive(Clone, Copy)]
pub enum Call {
    Post { from: u8, to: u8, amount: u32 },
    Amend { line: u16, amount: u32 },
    Strike { line: u16 },
    Clear,
}

// What such a call answers where it is not refused.
#[derive(Clone, Copy)]
pub enum Answer {
    Posted(u16),
    Done,
}
