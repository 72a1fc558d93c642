// A sheet's commands, and why reading, writing or stepping is refused.
ghost use Rattle.std.specs.Prelude.{◌≡◌};
ghost use Rattle.sheet.specs.Reading.{number};

// the bytes that commands begin with; constants, since they are the format and one match reads them: an enum would be matched a second time
pub const POST: u8 = 0x50;

pub const AMEND: u8 = 0x41;

pub const STRIKE: u8 = 0x53;

pub const CLEAR: u8 = 0x43;

pub const NOTE: u8 = 0x4E;

pub const LIST: u8 = 0x4B;

pub const DIVIDE: u8 = 0x44;

// the highest rule of a divide command
pub const LAST_RULE: u8 = 1;

// A command by its operands. The text of a note is that part of the sheet itself. Four cases have the fields of the book's calls; they stay commands of their own,
// each with its byte: with a call inside one case, reading and writing would match twice.
#[derive(Clone, Copy)]
pub enum Command<'a> {
    Post { from: u8, to: u8, amount: u32 },
    Amend { line: u16, amount: u32 },
    Strike { line: u16 },
    Clear,
    Note(&'a [u8]),
    List { floor: u32 },
    // the rule stays a byte: write is handed any, and refuses those above the highest
    Divide { rule: u8 },
}

// A command that was read, and the place after it.
#[derive(Clone, Copy)]
pub struct Found<'a> {
    pub command: Command<'a>,
    pub after: usize,
}

#[derive(Clone, Copy)]
pub enum Fault {
    // the sheet is too long, or the place lies past its end
    OutOfRange,
    // no command has the byte at that place
    UnknownCommand(usize),
    // the sheet ends within the operands of the command at that place
    CutOff(usize),
    // the byte at that place cannot stand in a note
    NoteByte(usize),
    // the byte at that place names no rule
    RuleByte(usize),
    // the page or the buffer is too short
    TooShort,
    // a lent table is too small
    TablesTooSmall,
}

impl Fault {
    // The refusal's number, by name as that of the book's faults.
    pub fn number(&self) -> u8
        ensures { result ≡ number self.now }
    {
        match self {
            Fault::OutOfRange => 12,
            Fault::UnknownCommand(_) => 13,
            Fault::CutOff(_) => 14,
            Fault::NoteByte(_) => 15,
            Fault::RuleByte(_) => 16,
            Fault::TooShort => 17,
            Fault::TablesTooSmall => 10,
        }
    }
}
