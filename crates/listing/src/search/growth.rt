// How a certain chain grows by a line at its end.
ghost use Rattle.std.specs.Prelude.{◌≡◌, ◌*◌, ◌≤◌};
ghost use Rattle.book.specs.Limits.{greatest_amount};
ghost use Rattle.book.specs.Lines.{lines};
ghost use Rattle.flow.specs.Chains.{longest_chain};
ghost use Rattle.listing.specs.Growth.{grown, held, FirstGrown, Front};

use crate::reach::Reach;
use crate::search::Search;
use chains::{Parts, parts};

impl Search<'_> {
    // What a chain, or no line, comes to with one line more, where that is certain.
    fn grow(&self, before: Option<Reach>, line: u16) -> Option<Reach>
        requires { held before ≤ longest_chain * greatest_amount }
        ensures { result ≡ grown (lines self.now.book.now) self.now.floor before line }
    {
        let Parts { from, to, amount } = parts(self.book, line);
        match before {
            None => {
                if amount < self.floor {
                    return None;
                }
                Some(Reach {
                    account: to,
                    tonnes: amount as u64,
                })
            }
            Some(reach) => {
                let total = self.totals[from as usize] as u64;
                let joined = reach.tonnes + amount as u64;
                if reach.account != from || amount == 0 || joined < total + self.floor as u64 {
                    return None;
                }
                Some(Reach {
                    account: to,
                    tonnes: joined - total,
                })
            }
        }
    }

    // The lowest line, from a number on, by which a chain, or no line, grows, and what it then comes to.
    pub fn first_growth(&self, before: Option<Reach>, lowest: usize) -> Option<(u16, Reach)>
        requires { held before ≤ longest_chain * greatest_amount }
        ensures { FirstGrown (lines self.now.book.now) self.now.floor before lowest result }
    {
        (lowest..self.book.len()).find_map(|i| {
            let line = i as u16;
            self.grow(before, line).map(|reach| (line, reach))
        })
    }

    // How many numbers, from the first on, are a certain chain, and what that has come to.
    pub fn front(&self, given: &[u16]) -> (usize, Option<Reach>)
        ensures { Front (lines self.now.book.now) self.now.floor given.now result.0 result.1 }
    {
        let mut reach = None;
        for (i, line) in given.iter().enumerate() {
            match self.grow(reach, *line) {
                Some(more) => reach = Some(more),
                None => return (i, reach),
            }
        }
        (given.len(), reach)
    }
}
