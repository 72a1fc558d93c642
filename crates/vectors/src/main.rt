//! Prints the statement of every sheet that names.txt lists.
#![tactic(auto)]

use sheet::Statement;
use std::alloc::{AllocError, Global};
use std::io::Write;
use std::{fs, io};

// so many steps are made in one run
const STEPS_AT_ONCE: usize = 64;

fn main(rt: HostRuntime) -> io::Result<()> {
    let names = fs::read_to_string(&rt, "names.txt")?;
    for name in names.as_str().lines() {
        print_statement(&rt, name)?;
    }
    Ok(())
}

fn print_statement(rt: &HostRuntime, name: &str) -> io::Result<()> {
    let path = format!(in rt.alloc(); "{name}.sheet")?;
    let sheet = fs::read(rt, path.as_str())?;
    let statement = whole_statement(rt.alloc(), &sheet)?;
    println!(rt; "== {name}")?;
    rt.stdout().write_all(&statement)
}

// The program `statement` writes the lines of each run instead: one loop for both would be passed what to do with them, and be no plainer.
fn whole_statement(heap: Global, sheet: &[u8]) -> Result<Vec<u8>, AllocError> {
    let mut statement = Statement::new(sheet);
    let mut lines = Vec::new(heap);
    for _ in 0..u64::MAX {
        if statement.run(&mut lines, STEPS_AT_ONCE)? {
            break;
        }
    }
    Ok(lines)
}
