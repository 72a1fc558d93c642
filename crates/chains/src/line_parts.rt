// The parts of a line.
ghost use Rattle.std.specs.Prelude.{◌≡◌};
ghost use Rattle.book.specs.Totals.{amount_of};
ghost use Rattle.flow.specs.Chains.{from_of, to_of};

use book::Line;

// The accounts that a line leaves and enters, and its amount.
#[derive(Clone, Copy)]
pub struct Parts {
    pub from: u8,
    pub to: u8,
    pub amount: u32,
}

// Nothing of these where the line is not live: 0 and not an Option, so that amounts are added and compared with no case for it.
impl From<Line> for Parts {
    ghost from_gives = { λ line parts. (parts.from ≡ from_of line) × (parts.to ≡ to_of line) × (parts.amount ≡ amount_of line) };

    fn from(line: Line) -> Parts {
        match line {
            Line::Live { from, to, amount } => Parts { from, to, amount },
            Line::Struck => Parts {
                from: 0,
                to: 0,
                amount: 0,
            },
        }
    }
}
