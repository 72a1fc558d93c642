// Cases of what a rule names, at an account, after a walk, with so many tonnes left on each line.
use anyhow::{Context, anyhow};
use book::{Book, MOST_LINES};
use case_words::{line_numbers, next_number, next_word};
use dividing::{Avoiding, Lowest, Rule, Widest};
use std::alloc::Global;
use std::str::SplitWhitespace;

// `name RULE ACCOUNT ; WALK ; LEFT`
pub fn named(heap: Global, book: &Book, text: &str) -> anyhow::Result<u16> {
    let (before, rest) = halves(text)?;
    let mut words = before.split_whitespace();
    next_word(&mut words)?;
    let rule = next_word(&mut words)?;
    let account = next_number(&mut words)?;
    match rule {
        "0" => name_line(heap, book, &Lowest, account, rest),
        "1" => name_line(heap, book, &Widest, account, rest),
        _ => Err(anyhow!("no such rule")),
    }
}

// `pass LIST ; ACCOUNT ; WALK ; LEFT`, under the rule that avoids the list
pub fn named_avoiding(heap: Global, book: &Book, text: &str) -> anyhow::Result<u16> {
    let (before, rest) = halves(text)?;
    let mut words = before.split_whitespace();
    next_word(&mut words)?;
    let rule = Avoiding::new(&line_numbers(heap, words)?);
    let (account, rest) = halves(rest)?;
    name_line(heap, book, &rule, account.trim().parse::<u8>()?, rest)
}

// `WALK ; LEFT`
fn name_line<R: Rule>(
    heap: Global,
    book: &Book,
    rule: &R,
    account: u8,
    text: &str,
) -> anyhow::Result<u16> {
    let (walk, left) = halves(text)?;
    let walk = line_numbers(heap, walk.split_whitespace())?;
    let left = tonnes_left(left.split_whitespace())?;
    Ok(rule.name(book, &left, account, &walk))
}

fn halves(text: &str) -> anyhow::Result<(&str, &str)> {
    text.split_once(";").context("a semicolon is missing")
}

// The tonnes left on each line from the first on, and 0 on all others.
fn tonnes_left(words: SplitWhitespace<'_>) -> anyhow::Result<[u32; MOST_LINES]> {
    let mut left = [0u32; MOST_LINES];
    for (tonnes, word) in left.iter_mut().zip(words) {
        *tonnes = word.parse::<u32>()?;
    }
    Ok(left)
}
