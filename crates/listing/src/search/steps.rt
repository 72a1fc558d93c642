// The step from a list to the first certain chain after it.
ghost use Rattle.book.specs.Lines.{lines};
ghost use Rattle.listing.specs.After.{Open};
ghost use Rattle.listing.specs.Walks.{Branched, Stepped};

use crate::reach::Reach;
use crate::search::Search;
use crate::walk::{Walk, branch_off, lowest_after};

impl Search<'_> {
    // The lowest line that, behind the first lines of the list, makes a later certain chain.
    fn branch(&self, given: &[u16], kept: usize) -> Option<(Walk, Reach)>
        requires { Open (lines self.now.book.now) self.now.floor given.now kept }
        ensures { Branched (lines self.now.book.now) self.now.floor given.now kept result }
    {
        let stem = &given[..kept];
        let (_, before) = self.front(stem);
        let lowest = lowest_after(given, kept);
        let (line, reach) = self.first_growth(before, lowest)?;
        Some((branch_off(stem, line), reach))
    }

    // The first certain chain after the list, where none is left that keeps more than `most` of its lines: branched off from as many as can be kept.
    pub fn climb(&self, given: &[u16], most: usize) -> Option<(Walk, Reach)>
        requires { Open (lines self.now.book.now) self.now.floor given.now most }
        ensures { Stepped (lines self.now.book.now) self.now.floor given.now result }
    {
        (0..=most).rev().find_map(|kept| self.branch(given, kept))
    }

    // The first certain chain after the list, whatever numbers it holds.
    pub fn step(&self, given: &[u16]) -> Option<(Walk, Reach)>
        ensures { Stepped (lines self.now.book.now) self.now.floor given.now result }
    {
        let (longest, _) = self.front(given);
        self.climb(given, longest)
    }
}
