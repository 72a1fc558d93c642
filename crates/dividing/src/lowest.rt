// Rule 0: the lowest open line.
ghost use Rattle.flow.specs.Rules.{lowest};
ghost use Rattle.flow.proofs.RuleLaws.{law_lowest};

use crate::open::OpenLines;
use crate::rules::Rule;
use book::{Book, MOST_LINES};

#[derive(Clone, Copy)]
pub struct Lowest;

impl Rule for Lowest {
    ghost choice = { λ _. lowest };

    ghost keeps = { λ rule. law_lowest };

    fn name(&self, book: &Book, left: &[u32; MOST_LINES], account: u8, _walked: &[u16]) -> u16 {
        OpenLines {
            book,
            left,
            account,
        }
        .lowest()
    }
}
