// A book: its table of records and how many of them are posted, with what every book has.
ghost use Rattle.std.specs.Prelude.{ℕ, ◌<◌, ◌≤◌, slice_index_or};
ghost use Rattle.book.specs.Limits.{most_lines, highest_account, greatest_amount};
ghost use Rattle.book.specs.Records.{blank};

use crate::table::Table;

mod balance;
mod calls;
mod reads;

// Every line, struck ones too, goes from a lower to a higher account and has an amount within its limits. The records stand in an array with a
// count beside it: a book takes no heap and can be copied, which the toolchain's vector of fixed room cannot.
#[derive(Clone, Copy)]
pub struct Book {
    table: Table,
    count: usize,
    ghost few: { count ≤ most_lines },
    ghost upward: { (k : ℕ) → k < count → (slice_index_or table.records k blank).from < (slice_index_or table.records k blank).to },
    ghost placed: { (k : ℕ) → k < count → (slice_index_or table.records k blank).to ≤ highest_account },
    ghost some: { (k : ℕ) → k < count → 0 < (slice_index_or table.records k blank).amount },
    ghost sized: { (k : ℕ) → k < count → (slice_index_or table.records k blank).amount ≤ greatest_amount },
}
