// Rule 1: the open line with the most tonnes left, the lowest among equals.
ghost use Rattle.flow.specs.Rules.{widest};
ghost use Rattle.flow.proofs.RuleLaws.{law_widest};

use crate::open::OpenLines;
use crate::rules::Rule;
use book::{Book, MOST_LINES};

#[derive(Clone, Copy)]
pub struct Widest;

impl Rule for Widest {
    ghost choice = { λ _. widest };

    ghost keeps = { λ rule. law_widest };

    fn name(&self, book: &Book, left: &[u32; MOST_LINES], account: u8, _walked: &[u16]) -> u16 {
        OpenLines {
            book,
            left,
            account,
        }
        .widest()
    }
}
