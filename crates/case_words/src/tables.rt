// Tables lent to a call: filled before it, and shown after it.
ghost use Rattle.std.specs.Prelude.{◌≡◌, ◌↔◌, ◌<◌, length, Some, IfOk, IsTrue, replicate, slice_index, take, drop};
ghost use Rattle.case_words.specs.Shown.{numbers_text, rows_text, kept_text};
ghost use Rattle.case_words.specs.Tables.{filler, in_row, EntriesKept, TonnesKept};

use dividing::ROW_STRIDE;
use std::alloc::{AllocError, Global};
use std::fmt;

// what every entry holds before a call
pub const FILLER: u16 = 61_166;

// The lines of a row: its first entry is how many they are.
pub fn lines_of(row: &[u16]) -> &[u16]
    ensures { result.now ≡ take (slice_index row.now 0) (drop 1 row.now) }
{
    match row {
        [] => row,
        [length, lines @ ..] => &lines[..lines.len().min(usize::from(*length))],
    }
}

#[derive(Drop)]
pub struct Tables {
    pub rows: Vec<u16>,
    pub tonnes: Vec<u32>,
}

impl Tables {
    pub fn new(heap: Global, entries: usize, tonnes: usize) -> Result<Tables, AllocError>
        ensures rows { IfOk result (λ tables. tables.rows.items ≡ replicate entries filler) }
        ensures tonnes { IfOk result (λ tables. tables.tonnes.items ≡ replicate tonnes filler) }
    {
        let rows = vec![in heap; FILLER; entries]?;
        let tonnes = vec![in heap; u32::from(FILLER); tonnes]?;
        Ok(Tables { rows, tonnes })
    }

    // Whether all entries but those of the first rows hold what they held before a call.
    pub fn rest_is_kept(&self, count: usize) -> bool
        ensures { IsTrue result ↔ (EntriesKept self.now.rows.items count × TonnesKept self.now.tonnes.items count) }
    {
        self.entries_are_kept(count) && self.tonnes_are_kept(count)
    }

    fn entries_are_kept(&self, count: usize) -> bool
        ensures { IsTrue result ↔ EntriesKept self.now.rows.items count }
    {
        self.rows
            .iter()
            .enumerate()
            .all(|(at, entry)| *entry == FILLER || self.is_used(count, at))
    }

    fn tonnes_are_kept(&self, count: usize) -> bool
        ensures { IsTrue result ↔ TonnesKept self.now.tonnes.items count }
    {
        self.tonnes
            .iter()
            .skip(count)
            .all(|entry| *entry == u32::from(FILLER))
    }

    // Whether an entry is the length of one of the first rows, or a line that it counts.
    fn is_used(&self, count: usize, at: usize) -> bool
        ensures { at < length self.now.rows.items → result ≡ in_row self.now.rows.items count at }
    {
        let line = at % ROW_STRIDE;
        at / ROW_STRIDE < count
            && self
                .rows
                .get(at - line)
                .is_some_and(|length| line <= usize::from(*length))
    }
}

// Each line's number, after a space.
#[derive(Clone, Copy)]
pub struct Lines<'a>(pub &'a [u16]);

impl fmt::Display for Lines<'_> {
    ghost output = { λ shown. Some (numbers_text shown.0.now) };

    fn fmt<W: fmt::Write>(&self, f: &mut fmt::Formatter<W>) -> fmt::Result {
        for number in self.0 {
            write!(f, " {number}")?;
        }
        Ok(())
    }
}

// So many rows from the first on, each with its tonnes before its lines.
#[derive(Clone, Copy)]
pub struct Rows<'a>(pub &'a Tables, pub usize);

impl fmt::Display for Rows<'_> {
    ghost output = { λ shown. Some (rows_text shown.0.now.rows.items shown.0.now.tonnes.items shown.1) };

    fn fmt<W: fmt::Write>(&self, f: &mut fmt::Formatter<W>) -> fmt::Result {
        let Rows(tables, count) = *self;
        let rows = tables.rows.chunks(ROW_STRIDE);
        for (row, tonnes) in rows.zip(&tables.tonnes).take(count) {
            let lines = Lines(lines_of(row));
            write!(f, "; {tonnes} on{lines}")?;
        }
        Ok(())
    }
}

// Whether something holds what it held before.
#[derive(Clone, Copy)]
pub struct Kept(pub bool);

impl fmt::Display for Kept {
    ghost output = { λ shown. Some (kept_text shown.0) };

    fn fmt<W: fmt::Write>(&self, f: &mut fmt::Formatter<W>) -> fmt::Result {
        f.write_str(if self.0 { "kept" } else { "changed" })
    }
}
