// How answers are shown: bytes, commands and refusals.
use sheet::{Command, Fault};
use std::fmt;

// what a buffer or a page holds before it is written to
pub const FILLER: u8 = 0xEE;

// Each byte in hexadecimal, after a space.
#[derive(Clone, Copy)]
pub struct Hex<'a>(pub &'a [u8]);

impl fmt::Display for Hex<'_> {
    fn fmt<W: fmt::Write>(&self, f: &mut fmt::Formatter<W>) -> fmt::Result {
        for byte in self.0 {
            write!(f, " {byte:02X}")?;
        }
        Ok(())
    }
}

// A command by its name and its operands.
#[derive(Clone, Copy)]
pub struct Named<'a>(pub Command<'a>);

impl fmt::Display for Named<'_> {
    fn fmt<W: fmt::Write>(&self, f: &mut fmt::Formatter<W>) -> fmt::Result {
        match self.0 {
            Command::Post { from, to, amount } => write!(f, "post {from} {to} {amount}"),
            Command::Amend { line, amount } => write!(f, "amend {line} {amount}"),
            Command::Strike { line } => write!(f, "strike {line}"),
            Command::Clear => write!(f, "clear"),
            Command::Note(text) => {
                let bytes = Hex(text);
                write!(f, "note{bytes}")
            }
            Command::List { floor } => write!(f, "list {floor}"),
            Command::Divide { rule } => write!(f, "divide {rule}"),
        }
    }
}

// A refusal's number, and the place that it carries.
#[derive(Clone, Copy)]
pub struct Refusal(pub Fault);

impl fmt::Display for Refusal {
    fn fmt<W: fmt::Write>(&self, f: &mut fmt::Formatter<W>) -> fmt::Result {
        let number = self.0.number();
        match self.0 {
            Fault::UnknownCommand(place)
            | Fault::CutOff(place)
            | Fault::NoteByte(place)
            | Fault::RuleByte(place) => write!(f, "refused {number} {place}"),
            Fault::OutOfRange | Fault::TooShort | Fault::TablesTooSmall => write!(
                f,
                "refused {number}"
            ),
        }
    }
}
