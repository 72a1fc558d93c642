// Why a question about chains is refused.
ghost use Rattle.std.specs.Prelude.{◌≡◌};
ghost use Rattle.chains.specs.Faults.{number};
ghost use Rattle.chains.specs.declared.faults.Fault.TheVariants.{Book};

use book::Fault as BookFault;

#[derive(Clone, Copy)]
pub enum Fault {
    // the line at that place is not posted or is struck: the book's own fault
    Line(usize, BookFault),
    // the line at that place does not leave the account that the line before it enters
    Gap(usize),
    // the chain has that many lines
    Length(usize),
    // a lent table or row is too small
    TooSmall,
    // the floor is 0
    NoFloor,
    // the book's own fault
    Book(BookFault),
}

impl Fault {
    // The refusal's number, by name as that of the book's faults.
    pub fn number(&self) -> u8
        ensures { result ≡ number self.now }
    {
        match self {
            Fault::Line(_, fault) => fault.number(),
            Fault::Gap(_) => 9,
            Fault::Length(_) => 8,
            Fault::TooSmall => 10,
            Fault::NoFloor => 11,
            Fault::Book(fault) => fault.number(),
        }
    }
}

impl From<BookFault> for Fault {
    ghost from_gives = { λ fault of. of ≡ Book fault };

    fn from(fault: BookFault) -> Fault {
        Self::Book(fault)
    }
}
