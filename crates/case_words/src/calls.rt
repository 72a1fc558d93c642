// Calls of a book, as words name them.
ghost use Rattle.std.specs.Prelude.{◌≡◌, ◌-◌, MatchResult, replicate};
ghost use Rattle.book.specs.Faults.{told};
ghost use Rattle.book.specs.Lines.{lines};
ghost use Rattle.book.specs.Tally.{after, outcome, tally};
ghost use Rattle.case_words.specs.Calls.{ReadsCall, FailsCall};
ghost use Rattle.case_words.specs.Changes.{ReadsChange, FailsChange};

use crate::words::{next_number, next_word};
use anyhow::anyhow;
use book::{Answer, Book, Call, Fault};
use std::str::SplitWhitespace;

// Reads a call from its name and the words that follow.
pub fn parse_call(name: &str, words: &mut SplitWhitespace<'_>) -> anyhow::Result<Call>
    ensures { MatchResult result
        (λ call. ReadsCall name.now words.old call words.new)
        (λ e. FailsCall name.now words.old e words.new) }
{
    match name {
        "post" => Ok(Call::Post {
            from: next_number(words)?,
            to: next_number(words)?,
            amount: next_number(words)?,
        }),
        "amend" => Ok(Call::Amend {
            line: next_number(words)?,
            amount: next_number(words)?,
        }),
        "strike" => Ok(Call::Strike {
            line: next_number(words)?,
        }),
        "clear" => Ok(Call::Clear),
        _ => Err(anyhow!("no such call")),
    }
}

// A call, and how many times it is made, once at least.
#[derive(Clone, Copy)]
pub struct Change {
    pub times: u16,
    pub call: Call,
}

impl Change {
    // Reads a call, or `times N CALL`, from its first word and the words that follow.
    pub fn parse(name: &str, words: &mut SplitWhitespace<'_>) -> anyhow::Result<Change>
        ensures { MatchResult result
            (λ change. ReadsChange name.now words.old change words.new)
            (λ e. FailsChange name.now words.old e words.new) }
    {
        if name != "times" {
            let call = parse_call(name, words)?;
            return Ok(Change { times: 1, call });
        }
        let times = next_number(words)?;
        let call = parse_call(next_word(words)?, words)?;
        Ok(Change { times, call })
    }

    // What the last of the calls answers.
    pub fn make(&self, book: &mut Book) -> Result<Answer, Fault>
        ensures answer { told result ≡ outcome (tally (lines book.old) (replicate (self.now.times - 1) self.now.call)) self.now.call }
        ensures lines { lines book.new ≡ after (tally (lines book.old) (replicate (self.now.times - 1) self.now.call)) self.now.call }
    {
        // copied out, so that the compiler knows that making the call leaves it as it is
        let call = self.call;
        for _ in 1..self.times {
            let _ = book.make(call);
        }
        book.make(call)
    }
}
