// Tables lent to a step, as they are shown after it.
use case_words::{FILLER, Rows, Tables};
use dividing::ROW_STRIDE;
use std::fmt;

// The rows that a step wrote, or whether all entries hold what they held before.
#[derive(Clone, Copy)]
pub struct Written<'a>(pub &'a Tables);

impl fmt::Display for Written<'_> {
    fn fmt<W: fmt::Write>(&self, f: &mut fmt::Formatter<W>) -> fmt::Result {
        let count = written_rows(&self.0.rows);
        if !self.0.rest_is_kept(count) {
            return write!(f, "tables changed");
        }
        if count == 0 {
            return write!(f, "tables kept");
        }
        let rows = Rows(self.0, count);
        write!(f, "tables {count} rows{rows}")
    }
}

// So many rows from the first on have a length.
fn written_rows(rows: &[u16]) -> usize {
    rows.chunks(ROW_STRIDE)
        .take_while(|row| row.first().is_some_and(|length| *length != FILLER))
        .count()
}
