// Cases of dividing a book, each into tables of its own.
use anyhow::bail;
use book::Book;
use case_words::{Kept, Refusal, Rows, Tables, line_numbers, next_word};
use chains::Fault;
use dividing::{Avoiding, Lowest, Widest, counter, divide};
use std::alloc::Global;
use std::fmt;
use std::str::SplitWhitespace;

// The tables after a call, and how many rows it filled.
#[derive(Drop)]
pub struct Divided {
    tables: Tables,
    count: Result<usize, Fault>,
}

// The count of rows and each row, or the refusal; then whether all other entries hold what they held before.
impl fmt::Display for Divided {
    fn fmt<W: fmt::Write>(&self, f: &mut fmt::Formatter<W>) -> fmt::Result {
        let count = match self.count {
            Ok(count) => {
                let rows = Rows(&self.tables, count);
                write!(f, "rows {count}{rows}")?;
                count
            }
            Err(fault) => {
                let refusal = Refusal(fault);
                write!(f, "{refusal}")?;
                0
            }
        };
        let rest = Kept(self.tables.rest_is_kept(count));
        write!(f, "; rest {rest}")
    }
}

// `divide RULE`, `counter CHAIN`, or `avoid LIST`: dividing under the rule that avoids the list
pub fn fill_tables(
    heap: Global,
    book: &Book,
    name: &str,
    mut words: SplitWhitespace<'_>,
    mut tables: Tables,
) -> anyhow::Result<Divided> {
    let count = match name {
        "divide" => match next_word(&mut words)? {
            "0" => divide(book, &Lowest, &mut tables.rows, &mut tables.tonnes),
            "1" => divide(book, &Widest, &mut tables.rows, &mut tables.tonnes),
            _ => bail!("no such rule"),
        },
        "counter" => {
            let chain = line_numbers(heap, words)?;
            counter(book, &chain, &mut tables.rows, &mut tables.tonnes)
        }
        "avoid" => {
            let rule = Avoiding::new(&line_numbers(heap, words)?);
            divide(book, &rule, &mut tables.rows, &mut tables.tonnes)
        }
        _ => bail!("no such question"),
    };
    Ok(Divided { tables, count })
}
