// Reading a sheet.
ghost use Rattle.std.specs.Prelude.{◌≡◌, ◌+◌, ◌<◌, ◌≤◌, ◌∷◌, length, MatchOption};
ghost use Rattle.sheet.specs.Commands.{longest_sheet, printable};
ghost use Rattle.sheet.specs.Reading.{reading, command, post_at, amend_at, strike_at, note_at, list_at, divide_at, clean, seen, found, Spelled};
ghost use Rattle.sheet.specs.Writing.{longest_command};

use crate::command::{
    AMEND, CLEAR, Command, DIVIDE, Fault, Found, LAST_RULE, LIST, NOTE, POST, STRIKE,
};
use crate::{LONGEST_SHEET, NOTE_LENGTH};

// The command at a place and the place after it, or nothing at the sheet's end.
pub fn read(sheet: &[u8], place: usize) -> Result<Option<Found<'_>>, Fault>
    ensures answer { seen result ≡ reading sheet.now place }
    ensures spelled { Spelled sheet.now place (seen result) }
{
    if sheet.len() > LONGEST_SHEET || place > sheet.len() {
        return Err(Fault::OutOfRange);
    }
    match &sheet[place..] {
        [] => Ok(None),
        [byte, bytes @ ..] => Operands { bytes, place }.read(*byte).map(Some),
    }
}

// The bytes behind a command byte, and the place of that byte in the sheet.
#[derive(Drop)]
struct Operands<'a> {
    bytes: &'a [u8],
    place: usize,
    ghost within: { place ≤ longest_sheet },
}

// Each command takes its operands apart by a pattern over the bytes, which is an agreed form: its bytes stand by name, and a command that is cut off is what
// the pattern does not fit.
impl<'a> Operands<'a> {
    fn read(&self, byte: u8) -> Result<Found<'a>, Fault>
        ensures { found result ≡ command self.now.place (byte ∷ self.now.bytes.now) }
    {
        match byte {
            POST => self.post(),
            AMEND => self.amend(),
            STRIKE => self.strike(),
            CLEAR => Ok(self.answer(Command::Clear, 1)),
            NOTE => self.note(),
            LIST => self.list(),
            DIVIDE => self.divide(),
            _ => Err(Fault::UnknownCommand(self.place)),
        }
    }

    fn post(&self) -> Result<Found<'a>, Fault>
        ensures { found result ≡ post_at self.now.place self.now.bytes.now }
    {
        let [from, to, a, b, c, d, ..] = *self.bytes else {
            return Err(Fault::CutOff(self.place));
        };
        let amount = u32::from_be_bytes([a, b, c, d]);
        Ok(self.answer(Command::Post { from, to, amount }, 7))
    }

    fn amend(&self) -> Result<Found<'a>, Fault>
        ensures { found result ≡ amend_at self.now.place self.now.bytes.now }
    {
        let [h, l, a, b, c, d, ..] = *self.bytes else {
            return Err(Fault::CutOff(self.place));
        };
        let line = u16::from_be_bytes([h, l]);
        let amount = u32::from_be_bytes([a, b, c, d]);
        Ok(self.answer(Command::Amend { line, amount }, 7))
    }

    fn strike(&self) -> Result<Found<'a>, Fault>
        ensures { found result ≡ strike_at self.now.place self.now.bytes.now }
    {
        let [h, l, ..] = *self.bytes else {
            return Err(Fault::CutOff(self.place));
        };
        let line = u16::from_be_bytes([h, l]);
        Ok(self.answer(Command::Strike { line }, 3))
    }

    fn note(&self) -> Result<Found<'a>, Fault>
        ensures { found result ≡ note_at self.now.place self.now.bytes.now }
    {
        let Some(text) = self.bytes.get(..NOTE_LENGTH) else {
            return Err(Fault::CutOff(self.place));
        };
        match first_unprintable(text) {
            Some(i) => Err(Fault::NoteByte(self.place + 1 + i)),
            None => Ok(self.answer(Command::Note(text), 1 + NOTE_LENGTH)),
        }
    }

    fn list(&self) -> Result<Found<'a>, Fault>
        ensures { found result ≡ list_at self.now.place self.now.bytes.now }
    {
        let [a, b, c, d, ..] = *self.bytes else {
            return Err(Fault::CutOff(self.place));
        };
        let floor = u32::from_be_bytes([a, b, c, d]);
        Ok(self.answer(Command::List { floor }, 5))
    }

    fn divide(&self) -> Result<Found<'a>, Fault>
        ensures { found result ≡ divide_at self.now.place self.now.bytes.now }
    {
        let [rule, ..] = *self.bytes else {
            return Err(Fault::CutOff(self.place));
        };
        if rule > LAST_RULE {
            return Err(Fault::RuleByte(self.place + 1));
        }
        Ok(self.answer(Command::Divide { rule }, 2))
    }

    // The command read, and the place after so many bytes.
    fn answer(&self, command: Command<'a>, length: usize) -> Found<'a>
        requires { length ≤ longest_command }
        ensures command { result.command ≡ command.entry }
        ensures after { result.after ≡ self.now.place + length }
    {
        Found {
            command,
            after: self.place + length,
        }
    }
}

// The index of the first byte that cannot stand in a note.
pub fn first_unprintable(text: &[u8]) -> Option<usize>
    ensures { MatchOption result (clean text.now ≡ length text.now) (λ i. (i ≡ clean text.now) × (i < length text.now)) }
{
    text.iter().position(|byte| !is_printable(*byte))
}

fn is_printable(byte: u8) -> bool
    ensures { result ≡ printable byte }
{
    matches!(byte, 0x20..=0x7E)
}
