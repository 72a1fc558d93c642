// Replies: what a book answers to changes and questions, in words.
ghost use Rattle.std.specs.Prelude.{◌≡◌, ◌≢◌, slice_index, Some, None, Ok, Err, IsOkAnd, IsErrAnd, IsSomeAnd, MatchResult};
ghost use Rattle.std.specs.Fmt.{WritesOnOk};
ghost use Rattle.book.specs.Faults.{carries};
ghost use Rattle.case_words.specs.Shown.{numbers_text, totals_text, reply_text, refusal_text, told_text, replied_text};
ghost use Rattle.case_words.specs.declared.replies.Reply.TheVariants.{Answer, Certainty};

use book::{ACCOUNTS, Answer, Fault as BookFault, Line};
use chains::{Certainty, Fault};
use std::fmt;

// What is answered where nothing is refused.
#[derive(Clone, Copy)]
pub enum Reply {
    Answer(Answer),
    Balanced,
    Yes,
    Number(u32),
    Totals([u32; ACCOUNTS]),
    Line(Option<Line>),
    Certainty(Certainty),
}

impl From<Answer> for Reply {
    ghost from_gives = { λ answer reply. reply ≡ Answer answer };

    fn from(answer: Answer) -> Reply {
        Reply::Answer(answer)
    }
}

impl From<Certainty> for Reply {
    ghost from_gives = { λ certainty reply. reply ≡ Certainty certainty };

    fn from(certainty: Certainty) -> Reply {
        Reply::Certainty(certainty)
    }
}

impl fmt::Display for Reply {
    ghost output = { λ reply. Some (reply_text reply) };

    fn fmt<W: fmt::Write>(&self, f: &mut fmt::Formatter<W>) -> fmt::Result {
        match *self {
            Reply::Answer(Answer::Posted(number)) => write!(f, "line {number}"),
            Reply::Answer(Answer::Done) => write!(f, "done"),
            Reply::Balanced => write!(f, "balanced"),
            Reply::Yes => write!(f, "yes"),
            Reply::Number(number) => write!(f, "{number}"),
            Reply::Totals(totals) => write_totals(f, &totals),
            Reply::Line(Some(Line::Live { from, to, amount })) => write!(
                f,
                "live {from} {to} {amount}"
            ),
            Reply::Line(Some(Line::Struck)) => write!(f, "struck"),
            Reply::Line(None) => write!(f, "none"),
            Reply::Certainty(Certainty::Held(tonnes)) => write!(f, "held {tonnes}"),
            Reply::Certainty(Certainty::Loose(tonnes)) => write!(f, "loose {tonnes}"),
        }
    }
}

// Each account with a total above 0; the rest have none.
fn write_totals<W: fmt::Write>(f: &mut fmt::Formatter<W>, totals: &[u32; ACCOUNTS]) -> fmt::Result
    ensures { WritesOnOk W.write_str_gives f.old result (totals_text totals.now) f.new }
{
    for (account, total) in totals.iter().enumerate() {
        if *total > 0 {
            write!(f, "{account}:{total} ")?;
        }
    }
    write!(f, "rest 0")
}

// A refusal's number, and what the fault carries.
#[derive(Clone, Copy)]
pub struct Refusal(pub Fault);

impl fmt::Display for Refusal {
    ghost output = { λ refusal. Some (refusal_text refusal.0) };

    fn fmt<W: fmt::Write>(&self, f: &mut fmt::Formatter<W>) -> fmt::Result {
        let number = self.0.number();
        write!(f, "refused {number}")?;
        match self.0 {
            Fault::Line(place, fault) => {
                write!(f, " {place}")?;
                write_carried(f, fault)
            }
            Fault::Gap(place) => write!(f, " {place}"),
            Fault::Length(length) => write!(f, " {length}"),
            Fault::TooSmall | Fault::NoFloor => Ok(()),
            Fault::Book(fault) => write_carried(f, fault),
        }
    }
}

// Each value that a fault of the book carries, after a space.
fn write_carried<W: fmt::Write>(f: &mut fmt::Formatter<W>, fault: BookFault) -> fmt::Result
    ensures { WritesOnOk W.write_str_gives f.old result (numbers_text (carries fault)) f.new }
{
    match fault {
        BookFault::Full | BookFault::NotUpward => Ok(()),
        BookFault::AccountTooHigh(account) => write!(f, " {account}"),
        BookFault::AmountOutOfLimits(amount) => write!(f, " {amount}"),
        BookFault::NotPosted(line) | BookFault::LineStruck(line) => write!(f, " {line}"),
        BookFault::Unbalanced(account, entering, leaving) => {
            write!(f, " {account} {entering} {leaving}")
        }
    }
}

// A reply, or why there is none.
#[derive(Clone, Copy)]
pub struct Told(pub Result<Reply, Fault>);

impl<T: Into<Reply>, E: Into<Fault>> From<Result<T, E>> for Told {
    ghost from_gives = { λ answer told. MatchResult answer
        (λ x. IsOkAnd told.0 (T.converts x))
        (λ e. IsErrAnd told.0 (E.converts e)) };

    fn from(told: Result<T, E>) -> Told {
        Told(told.map(|reply| reply.into()).map_err(|fault| fault.into()))
    }
}

impl fmt::Display for Told {
    ghost output = { λ told. Some (told_text told.0) };

    fn fmt<W: fmt::Write>(&self, f: &mut fmt::Formatter<W>) -> fmt::Result {
        match self.0 {
            Ok(reply) => write!(f, "{reply}"),
            Err(fault) => {
                let refusal = Refusal(fault);
                write!(f, "{refusal}")
            }
        }
    }
}

// A line of a file of cases: a heading alone, or a case with its reply.
#[derive(Drop)]
pub struct Replied<'a, R> {
    pub line: &'a str,
    pub reply: Option<R>,
}

// A heading begins with `#`, and is asked nothing.
pub fn reply_to<'a, R: Drop, F>(line: &'a str, answer: F) -> anyhow::Result<Replied<'a, R>>
where
    F: FnOnce(&'a str) -> anyhow::Result<R> + Drop,
    requires { F.pre answer line }
    ensures heading { slice_index line.now 0 ≡ 35 → IsOkAnd result (λ shown. (shown.line.now ≡ line.now) × (shown.reply ≡ None)) }
    ensures case { slice_index line.now 0 ≢ 35 → MatchResult result
        (λ shown. (shown.line.now ≡ line.now) × IsSomeAnd shown.reply (λ reply. F.post answer line.entry (Ok reply)))
        (λ e. F.post answer line.entry (Err e)) }
{
    let reply = if line.starts_with('#') {
        None
    } else {
        Some(answer(line)?)
    };
    Ok(Replied { line, reply })
}

impl<R: fmt::Display> fmt::Display for Replied<'_, R> {
    ghost output = { λ replied. replied_text R.output replied.line.now replied.reply };

    fn fmt<W: fmt::Write>(&self, f: &mut fmt::Formatter<W>) -> fmt::Result {
        let line = self.line;
        match &self.reply {
            Some(reply) => write!(f, "{line} -> {reply}"),
            None => write!(f, "{line}"),
        }
    }
}
