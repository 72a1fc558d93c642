// Cases of reading a sheet at a place.
use crate::hex::hex_bytes;
use crate::shown::{Named, Refusal};
use case_words::next_number;
use sheet::read;

// the byte of a clear command
const CLEAR: u8 = 0x43;

// `PLACE BYTES`
pub fn print_read(rt: &HostRuntime, text: &str) -> anyhow::Result<()> {
    let mut words = text.split_whitespace();
    let place = next_number(&mut words)?;
    let sheet = hex_bytes(rt.alloc(), words)?;
    print!(rt; "read {text} -> ")?;
    print_reading(rt, &sheet, place)
}

// `PLACE LENGTH`, at a sheet of so many clear commands
pub fn print_long_read(rt: &HostRuntime, text: &str) -> anyhow::Result<()> {
    let mut words = text.split_whitespace();
    let place = next_number(&mut words)?;
    let length = next_number(&mut words)?;
    let sheet = vec![in rt.alloc(); CLEAR; length]?;
    print!(rt; "long {text} -> ")?;
    print_reading(rt, &sheet, place)
}

fn print_reading(rt: &HostRuntime, sheet: &[u8], place: usize) -> anyhow::Result<()> {
    match read(sheet, place) {
        Ok(None) => rt.println("end")?,
        Ok(Some(found)) => {
            let command = Named(found.command);
            let after = found.after;
            println!(rt; "{command}, after {after}")?;
        }
        Err(fault) => rt.println(Refusal(fault))?,
    }
    Ok(())
}
