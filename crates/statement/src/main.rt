//! Reads a sheet on standard input, and writes its statement on standard output.
#![tactic(auto)]

use sheet::{LONGEST_SHEET, Statement};
use std::io;
use std::io::{Read, Write};

// so many lines are written at once
const LINES_AT_ONCE: usize = 256;

fn main(rt: HostRuntime) -> io::Result<()> {
    let mut bytes = Vec::new(rt.alloc());
    // one byte past the longest sheet tells that a sheet is too long
    rt.stdin()
        .take(LONGEST_SHEET as u64 + 1)
        .read_to_end(&mut bytes)?;
    print_statement(&rt, &bytes)
}

fn print_statement(rt: &HostRuntime, sheet: &[u8]) -> io::Result<()> {
    let mut statement = Statement::new(sheet);
    let mut lines = Vec::new(rt.alloc());
    for _ in 0..u64::MAX {
        lines.clear();
        let over = statement.run(&mut lines, LINES_AT_ONCE)?;
        rt.stdout().write_all(&lines)?;
        if over {
            break;
        }
    }
    Ok(())
}
