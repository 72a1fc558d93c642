// Writing a command's bytes.
ghost use Rattle.std.specs.Prelude.{◌≡◌, ◌≤◌, length, OnOk};
ghost use Rattle.book.specs.Outcome.{Outcome, stopped, settled};
ghost use Rattle.sheet.specs.Commands.{meaning, bytes, divide, last_rule, Fit, Printable};
ghost use Rattle.book.specs.Overlay.{over};
ghost use Rattle.sheet.specs.Reading.{ReadsBack, checked};
ghost use Rattle.sheet.specs.Writing.{longest_command, note_stops, operand_stops, writing, written};

use crate::command::{AMEND, CLEAR, Command, DIVIDE, Fault, LAST_RULE, LIST, NOTE, POST, STRIKE};
use crate::page::put;
use crate::reading::first_unprintable;
use crate::{LONGEST_COMMAND, NOTE_LENGTH};

// Puts the command's bytes at the start of the buffer, which is lent, since writing takes no heap, and answers how many they are.
pub fn write(command: &Command<'_>, buffer: &mut [u8]) -> Result<usize, Fault>
    ensures answer { written result ≡ writing (meaning command.now) (length buffer.old) }
    ensures buffer { buffer.new ≡ settled (writing (meaning command.now) (length buffer.old)) buffer.old (over buffer.old (bytes (meaning command.now))) }
    ensures back { OnOk result (ReadsBack (meaning command.now)) }
{
    check_operands(*command)?;
    if buffer.len() < LONGEST_COMMAND {
        return Err(Fault::TooShort);
    }
    Ok(put_command(*command, buffer))
}

fn check_operands(command: Command<'_>) -> Result<(), Fault>
    ensures stop { (o : Outcome) → checked result o ≡ stopped (operand_stops (meaning command.entry)) o }
    ensures fit { OnOk result (Fit (meaning command.entry)) }
{
    match command {
        Command::Note(text) => check_note(text),
        Command::Divide { rule } => check_rule(rule),
        Command::Post { .. }
        | Command::Amend { .. }
        | Command::Strike { .. }
        | Command::Clear
        | Command::List { .. } => Ok(()),
    }
}

fn check_note(text: &[u8]) -> Result<(), Fault>
    ensures stop { (o : Outcome) → checked result o ≡ stopped (note_stops text.now) o }
    ensures fit { OnOk result (Printable text.now) }
{
    if text.len() != NOTE_LENGTH {
        return Err(Fault::NoteByte(text.len().min(NOTE_LENGTH)));
    }
    match first_unprintable(text) {
        Some(i) => Err(Fault::NoteByte(i)),
        None => Ok(()),
    }
}

fn check_rule(rule: u8) -> Result<(), Fault>
    ensures stop { (o : Outcome) → checked result o ≡ stopped (operand_stops (divide rule)) o }
    ensures fit { OnOk result (rule ≤ last_rule) }
{
    if rule > LAST_RULE {
        return Err(Fault::RuleByte(1));
    }
    Ok(())
}

fn put_command(command: Command<'_>, buffer: &mut [u8]) -> usize
    requires fit { Fit (meaning command) }
    requires room { longest_command ≤ length buffer.old }
    ensures count { result ≡ length (bytes (meaning command.entry)) }
    ensures buffer { buffer.new ≡ over buffer.old (bytes (meaning command.entry)) }
{
    match command {
        Command::Post { from, to, amount } => {
            let [a, b, c, d] = amount.to_be_bytes();
            put(buffer, 0, &[POST, from, to, a, b, c, d])
        }
        Command::Amend { line, amount } => {
            let [h, l] = line.to_be_bytes();
            let [a, b, c, d] = amount.to_be_bytes();
            put(buffer, 0, &[AMEND, h, l, a, b, c, d])
        }
        Command::Strike { line } => {
            let [h, l] = line.to_be_bytes();
            put(buffer, 0, &[STRIKE, h, l])
        }
        Command::Clear => put(buffer, 0, &[CLEAR]),
        Command::Note(text) => {
            let after = put(buffer, 0, &[NOTE]);
            put(buffer, after, text)
        }
        Command::List { floor } => {
            let [a, b, c, d] = floor.to_be_bytes();
            put(buffer, 0, &[LIST, a, b, c, d])
        }
        Command::Divide { rule } => put(buffer, 0, &[DIVIDE, rule]),
    }
}
