// The words of a line, read one after the other.
ghost use Rattle.std.specs.Prelude.{◌≡◌, Some, IfOk, OnErr, MatchResult, Ok, Err};
ghost use Rattle.std.specs.Str.Iter.{split_whitespace_steps};
ghost use Rattle.case_words.specs.Words.{LacksWord, ReadsNumber, LacksNumber, HasWord, ReadsEach, parses};

use anyhow::Context;
use std::alloc::Global;
use std::error::Error;
use std::num::ParseIntError;
use std::str::{FromStr, SplitWhitespace};

// The first word that is left. Where none is, nothing is read.
pub fn next_word<'a>(words: &mut SplitWhitespace<'a>) -> anyhow::Result<&'a str>
    ensures { MatchResult result
        (λ word. split_whitespace_steps words.old (Some word) words.new)
        (λ e. LacksWord words.old e × (words.new ≡ words.old)) }
{
    words.next().context("a word is missing")
}

// The first word that is left, as a number. A word that is no number is read, too.
pub fn next_number<N: FromStr>(words: &mut SplitWhitespace<'_>) -> anyhow::Result<N>
where
    N::Err: Error,
    ensures { MatchResult result
        (λ n. ReadsNumber N.from_str_gives words.old n words.new)
        (λ e. LacksNumber N.from_str_gives N.Err.output words.old e words.new) }
{
    Ok(next_word(words)?.parse::<N>()?)
}

// What each word that is left is read as.
pub fn each_word<T: Drop, F>(
    heap: Global,
    words: SplitWhitespace<'_>,
    read: F,
) -> anyhow::Result<Vec<T>>
where
    F: Fn(&str) -> Result<T, ParseIntError>,
    requires { F.IsAlwaysCallable read }
    ensures values { IfOk result (λ v. ReadsEach (λ word value. F.post read word (Ok value)) words.entry v.items) }
    ensures failed { OnErr result (HasWord words.entry) }
{
    let mut values = Vec::new(heap);
    for word in words {
        values.push(read(word)?)?;
    }
    Ok(values)
}

// All words that are left, each the number of a line.
pub fn line_numbers(heap: Global, words: SplitWhitespace<'_>) -> anyhow::Result<Vec<u16>>
    ensures numbers { IfOk result (λ v. ReadsEach (λ word n. parses 16 word.now (Ok n)) words.entry v.items) }
    ensures failed { OnErr result (HasWord words.entry) }
{
    each_word(heap, words, |word| word.parse::<u16>())
}
