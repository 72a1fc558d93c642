// Bytes in hexadecimal.
use anyhow::Context;
use case_words::each_word;
use std::alloc::Global;
use std::str::SplitWhitespace;

// All words that are left, each a byte.
pub fn hex_bytes(heap: Global, words: SplitWhitespace<'_>) -> anyhow::Result<Vec<u8>> {
    each_word(heap, words, |word| u8::from_str_radix(word, 16))
}

// A sheet in hexadecimal before the colon, and the text after it.
pub fn sheet_and_rest(heap: Global, text: &str) -> anyhow::Result<(Vec<u8>, &str)> {
    let (sheet, rest) = text.split_once(":").context("a colon is missing")?;
    Ok((hex_bytes(heap, sheet.split_whitespace())?, rest))
}
