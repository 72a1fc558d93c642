// Dividing rules: what a rule is told and names, and its law.
ghost use Rattle.std.specs.Prelude.{◌≡◌};
ghost use Rattle.book.specs.Lines.{lines};
ghost use Rattle.flow.specs.Rules.{Choice, Law};

use book::{Book, MOST_LINES};

// A rule is told the book, the tonnes left on each of its lines, an account and the lines walked so far, and names one line. It is told them one by one: a
// struct of them would ask more of whoever adds a rule.
// Its meaning is that choice. Its law: whenever some live line leaving the account has tonnes left, the line named is such a line.
pub trait Rule {
    ghost choice: { Self → Choice };

    fn name(&self, book: &Book, left: &[u32; MOST_LINES], account: u8, walked: &[u16]) -> u16
        ensures { result ≡ choice self.now (lines book.now) left.now account walked.now };

    ghost keeps: { (rule : Self) → Law (choice rule) };
}
