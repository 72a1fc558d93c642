//! A dispute over chains of the harbour book, settled on one page.
#![tactic(auto)]

use anyhow::bail;
use book::{Answer, Call, Entry};
use runs::replay_log;
use std::alloc::{AllocError, Global};

mod answers;
mod shown;

use answers::{print_certainty, print_list, print_lowest_split};

// from, to and tonnes of each line
const HARBOUR_LINES: [(u8, u8, u32); 4] = [(0, 2, 30), (1, 2, 20), (2, 3, 40), (2, 4, 10)];

// the chains asked about
const ASKED: [[u16; 2]; 4] = [[0, 2], [1, 2], [0, 3], [1, 3]];

const FLOOR: u32 = 20;

fn main(rt: HostRuntime) -> anyhow::Result<()> {
    let mut log = harbour_posts(rt.alloc())?;
    let book = replay_log(&mut log);
    rt.println("harbour book")?;
    for entry in &log {
        print_posted(&rt, *entry)?;
    }
    rt.println("chains asked about")?;
    for chain in &ASKED {
        print_certainty(&rt, &book, chain)?;
    }
    print_list(&rt, &book, FLOOR)?;
    print_lowest_split(&rt, &book, &ASKED[0])
}

fn harbour_posts(heap: Global) -> Result<Vec<Entry>, AllocError> {
    HARBOUR_LINES
        .iter()
        .map(|&(from, to, amount)| Entry {
            call: Call::Post { from, to, amount },
            answer: None,
        })
        .collect(heap)
}

fn print_posted(rt: &HostRuntime, entry: Entry) -> anyhow::Result<()> {
    let Call::Post { from, to, amount } = entry.call else {
        bail!("a call posts no line");
    };
    let Some(Ok(Answer::Posted(number))) = entry.answer else {
        bail!("a line is refused");
    };
    println!(rt; "  line {number}: {amount} tonnes from account {from} to account {to}")?;
    Ok(())
}
