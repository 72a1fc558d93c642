//! Whole runs of calls, with all that is promised of the book that they leave.
#![tactic(auto)]

ghost use Rattle.std.specs.Prelude.{[], IfOk};
ghost use Rattle.book.specs.Logs.{TalliedLog, calls_of};
ghost use Rattle.book.specs.Runs.{Tallied};
ghost use Rattle.book.specs.Tally.{tally};
ghost use Rattle.runs.specs.Promise.{KeptPromise};

use book::{Book, Call, Entry, Replayed};
use std::alloc::{AllocError, Global};

// Makes the calls, one after the other, on a clean book. Two calls, as in `book`, and for the same reason: this one owns its answers and can want memory.
pub fn replay(heap: Global, calls: &[Call]) -> Result<Replayed, AllocError>
    ensures { IfOk result (λ run. Tallied calls.now run × KeptPromise (tally [] calls.now)) }
{
    book::replay(heap, calls)
}

// The promise, which every list of calls keeps.
fn promise(log: &[Entry])
    ensures { KeptPromise (tally [] (calls_of log.now)) }
{}

// Makes the calls of a log, one after the other, on a clean book, and enters what each of them answered.
pub fn replay_log(log: &mut [Entry]) -> Book
    ensures tallied { TalliedLog log.old log.new result }
    ensures promise { KeptPromise (tally [] (calls_of log.old)) }
{
    promise(log);
    book::replay_log(log)
}
