// Whole runs of calls on a clean book.
ghost use Rattle.std.specs.Prelude.{◌≡◌, IfOk};
ghost use Rattle.book.specs.Lines.{lines};
ghost use Rattle.book.specs.Logs.{Entered, TalliedLog};
ghost use Rattle.book.specs.Runs.{Tallied};
ghost use Rattle.book.specs.Tally.{after};

use crate::entries::{Answer, Call, Fault};
use crate::state::Book;
use std::alloc::{AllocError, Global};

// A book after a run, and what each call of it answered.
#[derive(Drop)]
pub struct Replayed {
    pub book: Book,
    pub answers: Vec<Result<Answer, Fault>>,
}

// One call of a run, and what it answered once it is made.
#[derive(Clone, Copy)]
pub struct Entry {
    pub call: Call,
    pub answer: Option<Result<Answer, Fault>>,
}

// Makes the calls, one after the other, on a clean book. Beside replay_log: this one owns its answers and can want memory, that one writes them
// where its caller has room and cannot fail; one function over both would ask its caller which, and fail where replay_log does not.
pub fn replay(heap: Global, calls: &[Call]) -> Result<Replayed, AllocError>
    ensures { IfOk result (Tallied calls.now) }
{
    let mut book = Book::new();
    let mut answers = Vec::new(heap);
    for call in calls {
        let answer = book.make(*call);
        answers.push(answer)?;
    }
    Ok(Replayed { book, answers })
}

// Makes the call of an entry, and enters what it answered.
fn enter(book: &mut Book, entry: &mut Entry)
    ensures answer { Entered (lines book.old) entry.old entry.new }
    ensures lines { lines book.new ≡ after (lines book.old) entry.old.call }
{
    entry.answer = Some(book.make(entry.call));
}

// Makes the calls of a log, one after the other, on a clean book, and enters what each of them answered.
pub fn replay_log(log: &mut [Entry]) -> Book
    ensures { TalliedLog log.old log.new result }
{
    let mut book = Book::new();
    for entry in log.iter_mut() {
        enter(&mut book, entry);
    }
    book
}
