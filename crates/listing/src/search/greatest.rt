// Whether a certain chain is greatest, and the first that is.
ghost use Rattle.std.specs.Prelude.{◌≡◌, ◌*◌, ◌<◌, ◌≤◌};
ghost use Rattle.book.specs.Limits.{accounts, greatest_amount};
ghost use Rattle.book.specs.Lines.{lines};
ghost use Rattle.book.specs.Totals.{in_total};
ghost use Rattle.flow.specs.Chains.{longest_chain};
ghost use Rattle.listing.specs.Growth.{Comes, precedes, Preceded};
ghost use Rattle.listing.specs.Picks.{Picked};
ghost use Rattle.listing.specs.Walks.{Judged};

use crate::reach::Reach;
use crate::search::Search;
use crate::walk::{Walk, branch_off};
use chains::parts;

// A certain chain is greatest, or to be passed over for the first certain chain after it.
// An Option of an Option is no plainer: it does not say which None stands for a greatest chain.
#[derive(Drop)]
pub enum Verdict {
    Greatest,
    Passed(Option<(Walk, Reach)>),
}

impl Search<'_> {
    // Whether a line makes a longer certain chain, put before one that leaves the account with that excess.
    fn is_before(&self, total: u32, account: u8, tonnes: u64, line: u16) -> bool
        requires total { total ≡ in_total (lines self.now.book.now) account }
        requires small { tonnes ≤ longest_chain * greatest_amount }
        ensures { result ≡ precedes (lines self.now.book.now) self.now.floor account tonnes line }
    {
        let found = parts(self.book, line);
        found.to == account
            && found.amount > 0
            && tonnes + found.amount as u64 >= total as u64 + self.floor as u64
    }

    // Whether some line does.
    fn grows_left(&self, account: u8, tonnes: u64) -> bool
        requires within { account < accounts }
        requires small { tonnes ≤ longest_chain * greatest_amount }
        ensures { Preceded (lines self.now.book.now) self.now.floor account tonnes result }
    {
        let total = self.totals[account as usize];
        (0..self.book.len()).any(|i| self.is_before(total, account, tonnes, i as u16))
    }

    // Whether a certain chain is greatest: it is where it grows neither to the right nor to the left. Else the first certain chain after it.
    fn judge(&self, chain: &[u16], reach: Reach) -> Verdict
        requires { Comes (lines self.now.book.now) self.now.floor chain.now reach }
        ensures { Judged (lines self.now.book.now) self.now.floor chain.now result }
    {
        if let Some((line, more)) = self.first_growth(Some(reach), 0) {
            return Verdict::Passed(Some((branch_off(chain, line), more)));
        }
        let account = parts(self.book, chain[0]).from;
        if self.grows_left(account, reach.tonnes) {
            return Verdict::Passed(self.climb(chain, chain.len() - 1));
        }
        Verdict::Greatest
    }

    // The first greatest certain chain after the list, with its figure: the certain chains after the list are gone through in order.
    pub fn first_greatest(&self, given: &[u16]) -> Option<(Walk, u64)>
        ensures { Picked (lines self.now.book.now) self.now.floor given.now result }
    {
        let mut ahead = self.step(given);
        while let Some((found, reach)) = ahead {
            match self.judge(&found, reach) {
                Verdict::Greatest => return Some((found, reach.tonnes)),
                Verdict::Passed(after) => ahead = after,
            }
        }
        None
    }
}
