// The inner table of a book: plain records, and no promise about them. The place of a record is a plain index: the table's three calls ask
// that it is within, and a type for it would have to be made and read at each of them.
ghost use Rattle.std.specs.Prelude.{◌≡◌, ◌<◌, slice_index_or, slice_set};
ghost use Rattle.book.specs.Limits.{most_lines};
ghost use Rattle.book.specs.Records.{blank, revalued, retired, line_of, account_of};

use crate::MOST_LINES;
use crate::entries::Line;

// One line as it lies in the table; `live` is false for a struck line and for a blank record. A flag and not an Option: to strike is to write
// one field, and what holds of a line's accounts and amount goes on holding of it struck.
#[derive(Clone, Copy)]
pub struct Record {
    pub from: u8,
    pub to: u8,
    pub amount: u32,
    pub live: bool,
}

// Which of the two totals of an account: of the lines entering it, or of those leaving it.
#[derive(Clone, Copy)]
pub enum Side {
    In,
    Out,
}

impl Record {
    // The account that the line enters, or leaves.
    pub fn account(&self, side: Side) -> u8
        ensures { result ≡ account_of side self.now }
    {
        match side {
            Side::In => self.to,
            Side::Out => self.from,
        }
    }
}

// The line that a record stands for.
impl From<Record> for Line {
    ghost from_gives = { λ stored line. line ≡ line_of stored };

    fn from(stored: Record) -> Line {
        if !stored.live {
            return Line::Struck;
        }
        Line::Live {
            from: stored.from,
            to: stored.to,
            amount: stored.amount,
        }
    }
}

#[derive(Clone, Copy)]
pub struct Table {
    pub records: [Record; MOST_LINES],
}

impl Table {
    pub fn put(&mut self, at: usize, record: Record)
        requires { at < most_lines }
        ensures { self.new.records ≡ slice_set self.old.records at «record» }
    {
        self.records[at] = record;
    }

    // Lends one record, and gives it its new amount.
    pub fn revalue(&mut self, at: usize, amount: u32)
        requires { at < most_lines }
        ensures { self.new.records ≡ slice_set self.old.records at (revalued amount (slice_index_or self.old.records at blank)) }
    {
        let lent = &mut self.records[at];
        lent.amount = amount;
    }

    pub fn retire(&mut self, at: usize)
        requires { at < most_lines }
        ensures { self.new.records ≡ slice_set self.old.records at (retired (slice_index_or self.old.records at blank)) }
    {
        let lent = &mut self.records[at];
        lent.live = false;
    }
}
