// What the book answers about its chains, in words.
use crate::shown::Judged;
use anyhow::{anyhow, bail};
use book::Book;
use case_words::{Lines, Tables, lines_of};
use chains::{Certainty, certain};
use dividing::{ROW_STRIDE, TABLE_ENTRIES, TABLE_TONNES, counter};
use listing::read_list;

fn certainty_of(book: &Book, chain: &[u16]) -> anyhow::Result<Certainty> {
    certain(book, chain).map_err(|_| anyhow!("a chain is refused"))
}

pub fn print_certainty(rt: &HostRuntime, book: &Book, chain: &[u16]) -> anyhow::Result<()> {
    let judged = Judged(certainty_of(book, chain)?);
    let lines = Lines(chain);
    println!(rt; "  chain{lines}: {judged}")?;
    Ok(())
}

pub fn print_list(rt: &HostRuntime, book: &Book, floor: u32) -> anyhow::Result<()> {
    let Ok(list) = read_list(rt.alloc(), book, floor) else {
        bail!("the list is refused");
    };
    println!(rt; "greatest certain chains at floor {floor}")?;
    for listed in &list {
        let lines = Lines(&listed.chain);
        let figure = listed.figure;
        println!(rt; "  chain{lines} with {figure}")?;
    }
    Ok(())
}

// A split with as few tonnes on the chain as any split puts there.
pub fn print_lowest_split(rt: &HostRuntime, book: &Book, chain: &[u16]) -> anyhow::Result<()> {
    let figure = match certainty_of(book, chain)? {
        Certainty::Held(tonnes) => tonnes,
        Certainty::Loose(_) => 0,
    };
    let lines = Lines(chain);
    println!(rt; "a split that puts exactly {figure} on chain{lines}")?;
    print_counter(rt, book, chain)?;
    println!(rt; "every split puts at least {figure} there")?;
    Ok(())
}

// Each row of the split, in words of its own: what the library shows of tables is another sentence.
fn print_counter(rt: &HostRuntime, book: &Book, chain: &[u16]) -> anyhow::Result<()> {
    let mut tables = Tables::new(rt.alloc(), TABLE_ENTRIES, TABLE_TONNES)?;
    let Ok(count) = counter(book, chain, &mut tables.rows, &mut tables.tonnes) else {
        bail!("a counter split is refused");
    };
    let rows = tables.rows.chunks(ROW_STRIDE);
    for (row, tonnes) in rows.zip(&tables.tonnes).take(count) {
        let lines = Lines(lines_of(row));
        println!(rt; "  {tonnes} tonnes on{lines}")?;
    }
    Ok(())
}
