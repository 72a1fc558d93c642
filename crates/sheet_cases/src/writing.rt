// Cases of writing a command into a buffer.
use crate::hex::hex_bytes;
use crate::shown::{FILLER, Hex, Refusal};
use anyhow::anyhow;
use case_words::{next_number, next_word};
use sheet::{Command, write};
use std::str::SplitWhitespace;

// `LENGTH COMMAND`, into a buffer of that length
pub fn print_write(rt: &HostRuntime, text: &str) -> anyhow::Result<()> {
    let mut words = text.split_whitespace();
    let length = next_number(&mut words)?;
    let name = next_word(&mut words)?;
    print!(rt; "write {text} -> ")?;
    if name == "note" {
        let note = hex_bytes(rt.alloc(), words)?;
        return print_written(rt, &Command::Note(&note), length);
    }
    let command = parse_command(name, &mut words)?;
    print_written(rt, &command, length)
}

// Any command but a note. By `parse_call` it would be no plainer: each call would be turned into its command here.
fn parse_command(name: &str, words: &mut SplitWhitespace<'_>) -> anyhow::Result<Command<'static>> {
    match name {
        "post" => Ok(Command::Post {
            from: next_number(words)?,
            to: next_number(words)?,
            amount: next_number(words)?,
        }),
        "amend" => Ok(Command::Amend {
            line: next_number(words)?,
            amount: next_number(words)?,
        }),
        "strike" => Ok(Command::Strike {
            line: next_number(words)?,
        }),
        "clear" => Ok(Command::Clear),
        "list" => Ok(Command::List {
            floor: next_number(words)?,
        }),
        "divide" => Ok(Command::Divide {
            rule: next_number(words)?,
        }),
        _ => Err(anyhow!("no such command")),
    }
}

fn print_written(rt: &HostRuntime, command: &Command<'_>, length: usize) -> anyhow::Result<()> {
    let mut buffer = vec![in rt.alloc(); FILLER; length]?;
    match write(command, &mut buffer) {
        Ok(count) => print!(rt; "{count} bytes")?,
        Err(fault) => rt.print(Refusal(fault))?,
    }
    let bytes = Hex(&buffer);
    println!(rt; ", buffer{bytes}")?;
    Ok(())
}
