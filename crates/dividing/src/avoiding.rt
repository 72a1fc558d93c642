// The avoiding rule: it keeps tonnes off a chain while it can.
ghost use Rattle.std.specs.Prelude.{◌≡◌, ℕ, ◌<◌, ◌≤◌, List, [], length, take};
ghost use Rattle.book.specs.Lines.{lines};
ghost use Rattle.book.specs.Tally.{Tally};
ghost use Rattle.flow.specs.Chains.{longest_chain, runs, is_chain};
ghost use Rattle.flow.specs.Rules.{avoiding};
ghost use Rattle.flow.proofs.RuleLaws.{law_avoiding};
ghost use Rattle.dividing.specs.Places.{InnerPlace};

use crate::open::{OpenLines, line_leaves};
use crate::rules::Rule;
use book::{Book, MOST_LINES};
use chains::{LONGEST_CHAIN, parts};

// The chain is the first `count` of the lines held. An array with a count beside it, since this rule can be copied, which the toolchain's vector of
// fixed room cannot.
#[derive(Clone, Copy)]
pub struct Avoiding {
    chain: [u16; LONGEST_CHAIN],
    count: usize,
    ghost short: { count ≤ longest_chain },
}

impl Avoiding {
    // The rule that avoids the chain. Nothing is held of more lines than a chain can have: they are a chain of no book.
    pub fn new(chain: &[u16]) -> Avoiding
        ensures held { length chain.now ≤ longest_chain → take result.count result.chain ≡ chain.now }
        ensures none { longest_chain < length chain.now → take result.count result.chain ≡ [] }
        ensures same { (t : Tally) (left : List ℕ) (a : ℕ) (walked : List ℕ) → avoiding (take result.count result.chain) t left a walked ≡ avoiding chain.now t left a walked }
    {
        let mut held = [0u16; LONGEST_CHAIN];
        let count = chain.len();
        if count > LONGEST_CHAIN {
            return Avoiding {
                chain: held,
                count: 0,
            };
        }
        held[0..count].copy_from_slice(chain);
        Avoiding { chain: held, count }
    }
}

impl Rule for Avoiding {
    ghost choice = { λ s. avoiding (take s.count s.chain) };

    ghost keeps = { λ rule. law_avoiding (take rule.count rule.chain) };

    fn name(&self, book: &Book, left: &[u32; MOST_LINES], account: u8, walked: &[u16]) -> u16 {
        let here = OpenLines {
            book,
            left,
            account,
        };
        avoid(&here, walked, &self.chain[0..self.count])
    }
}

fn avoid(here: &OpenLines<'_>, walked: &[u16], chain: &[u16]) -> u16
    ensures { result ≡ avoiding chain.now (lines here.now.book.now) here.now.left.now here.now.account walked.now }
{
    match inner_place(here.book, here.account, chain) {
        Some(i) if walked.ends_with(&chain[0..i]) => here.lowest_other(chain[i]),
        Some(i) if here.tonnes_on(chain[i]) > 0 => chain[i],
        _ => here.lowest(),
    }
}

// The place of the line that leaves the account, among the lines of a chain behind the first; none where they are no chain of the book.
fn inner_place(book: &Book, account: u8, chain: &[u16]) -> Option<usize>
    ensures { InnerPlace (lines book.now) account chain.now result }
{
    if !is_chain(book, chain) {
        return None;
    }
    (1..chain.len()).find(|i| parts(book, chain[*i]).from == account)
}

fn is_chain(book: &Book, chain: &[u16]) -> bool
    ensures { result ≡ is_chain (lines book.now) chain.now }
{
    let [first, ..] = chain else {
        return false;
    };
    chain.len() <= LONGEST_CHAIN && runs_on(book, parts(book, *first).from, chain)
}

// Whether the lines run on from the account: each leaves the account that the one before it enters.
fn runs_on(book: &Book, start: u8, chain: &[u16]) -> bool
    ensures { result ≡ runs (lines book.now) start chain.now }
{
    let mut account = start;
    for line in chain {
        if !line_leaves(book, *line, account) {
            return false;
        }
        account = parts(book, *line).to;
    }
    true
}
