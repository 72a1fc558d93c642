// Cases of a statement's steps, each with a page and tables of its own.
use crate::hex::sheet_and_rest;
use crate::shown::{FILLER, Refusal};
use crate::tables::Written;
use anyhow::Context;
use case_words::{Kept, Tables};
use dividing::{TABLE_ENTRIES, TABLE_TONNES};
use sheet::Statement;
use std::alloc::Global;
use std::io::Write;

// `SHEET : LOANS`, a step for each loan of a page and tables
pub fn print_steps(rt: &HostRuntime, text: &str) -> anyhow::Result<()> {
    println!(rt; "steps {text}")?;
    let (sheet, loans) = sheet_and_rest(rt.alloc(), text)?;
    let mut statement = Statement::new(&sheet);
    for loan in loans.split_whitespace() {
        print!(rt; "page {loan} -> ")?;
        print_step(rt, &mut statement, loan)?;
    }
    Ok(())
}

// `LENGTH`, a page of that length and tables of the sizes needed, or `LENGTH/ENTRIES/TONNES`
fn print_step(rt: &HostRuntime, statement: &mut Statement<'_>, loan: &str) -> anyhow::Result<()> {
    let (length, mut tables) = match loan.split_once("/") {
        Some((length, sizes)) => (length, sized_tables(rt.alloc(), sizes)?),
        None => (loan, Tables::new(rt.alloc(), TABLE_ENTRIES, TABLE_TONNES)?),
    };
    let mut page = vec![in rt.alloc(); FILLER; length.parse::<usize>()?]?;
    match statement.step(&mut page, &mut tables.rows, &mut tables.tonnes) {
        Ok(Some(count)) => print_line(rt, &page, &tables, count),
        Ok(None) => {
            rt.print("end")?;
            print_kept(rt, &page, &tables)
        }
        Err(fault) => {
            rt.print(Refusal(fault))?;
            print_kept(rt, &page, &tables)
        }
    }
}

// `ENTRIES/TONNES`
fn sized_tables(heap: Global, sizes: &str) -> anyhow::Result<Tables> {
    let (entries, tonnes) = sizes.split_once("/").context("a size is missing")?;
    Ok(Tables::new(heap, entries.parse::<usize>()?, tonnes.parse::<usize>()?)?)
}

// The line stands at the start of the page, and ends this line too.
fn print_line(rt: &HostRuntime, page: &[u8], tables: &Tables, count: usize) -> anyhow::Result<()> {
    let (line, rest) = page
        .split_at_checked(count)
        .context("a line is longer than its page")?;
    let rest = kept(rest);
    let written = Written(tables);
    print!(rt; "{count} bytes, rest {rest}, {written}: ")?;
    rt.stdout().write_all(line)?;
    Ok(())
}

fn print_kept(rt: &HostRuntime, page: &[u8], tables: &Tables) -> anyhow::Result<()> {
    let page = kept(page);
    let written = Written(tables);
    println!(rt; ", page {page}, {written}")?;
    Ok(())
}

// Whether a part of a page still holds what it held before.
fn kept(part: &[u8]) -> Kept {
    Kept(part.iter().all(|byte| *byte == FILLER))
}
