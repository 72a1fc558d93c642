//! Puts the cases of cases.txt to the calls of the sheet layer, and prints what each answers.
#![tactic(auto)]

use anyhow::{Context, anyhow};
use reading::{print_long_read, print_read};
use running::print_runs;
use std::fs;
use stepping::print_steps;
use writing::print_write;

mod hex;
mod reading;
mod running;
mod shown;
mod stepping;
mod tables;
mod writing;

fn main(rt: HostRuntime) -> anyhow::Result<()> {
    let text = fs::read_to_string(&rt, "cases.txt")?;
    for line in text.as_str().lines() {
        print_case(&rt, line)?;
    }
    Ok(())
}

// A heading is printed as it is. `reply_to` does not serve here: a case of steps or of runs prints lines of bytes.
fn print_case(rt: &HostRuntime, line: &str) -> anyhow::Result<()> {
    if line.starts_with('#') {
        rt.println(line)?;
        return Ok(());
    }
    let (name, rest) = line.split_once(" ").context("a case has operands")?;
    match name {
        "read" => print_read(rt, rest),
        "long" => print_long_read(rt, rest),
        "write" => print_write(rt, rest),
        "steps" => print_steps(rt, rest),
        "runs" => print_runs(rt, rest),
        _ => Err(anyhow!("no such case")),
    }
}
