// Where the next row begins: the lowest origin that has an open line.
ghost use Rattle.std.specs.Prelude.{◌<◌};
ghost use Rattle.book.specs.Limits.{most_lines};
ghost use Rattle.book.specs.Lines.{lines};
ghost use Rattle.dividing.specs.Sources.{NextSource, SourceOf};

use crate::rules::Rule;
use crate::state::Division;
use chains::parts;

impl<R: Rule> Division<'_, R> {
    // The lowest origin that has an open line.
    pub fn next_source(&self) -> Option<u8>
        ensures { NextSource (lines self.now.book.now) self.now.left result }
    {
        (0..self.book.len())
            .filter_map(|line| self.source_of(line))
            .min()
    }

    // The account that the line leaves, where that is an origin and the line has tonnes left.
    fn source_of(&self, line: usize) -> Option<u8>
        requires { line < most_lines }
        ensures { SourceOf (lines self.now.book.now) self.now.left line result }
    {
        if self.left[line] == 0 {
            return None;
        }
        let from = parts(self.book, line as u16).from;
        if self.ins[from as usize] > 0 {
            return None;
        }
        Some(from)
    }
}
