// The steps of a statement.
ghost use Rattle.std.specs.Prelude.{◌≡◌, length};
ghost use Rattle.book.specs.Outcome.{Outcome};
ghost use Rattle.sheet.specs.Reading.{checked};
ghost use Rattle.sheet.specs.Statements.{clean_state, OneStatement};
ghost use Rattle.sheet.specs.Stepping.{state, step_stopped, Stepped};

use crate::SHORTEST_PAGE;
use crate::command::Fault;
use crate::reading::read;
use crate::statement::refusing::ends;
use crate::statement::{Course, Statement};
use arrayvec::ArrayVec;
use book::Book;
use dividing::{TABLE_ENTRIES, TABLE_TONNES};

impl<'a> Statement<'a> {
    // A statement of the sheet, before its first line.
    pub fn new(sheet: &'a [u8]) -> Statement<'a>
        ensures clean { state result ≡ clean_state sheet.now }
        ensures one { OneStatement sheet.now }
    {
        let course = Course {
            sheet,
            place: 0,
            book: Book::new(),
            count: 0,
            last: ArrayVec::new(),
        };
        Statement {
            course,
            ended: false,
        }
    }

    // Writes the next line of the statement at the start of the page, and answers its length; nothing after the end. Page and tables are lent: a step takes no heap.
    // A step that prints a row or the count of a dividing first fills the tables as divide does.
    pub fn step(
        &mut self,
        page: &mut [u8],
        rows: &mut [u16],
        tonnes: &mut [u32],
    ) -> Result<Option<usize>, Fault>
        ensures stop { (o : Outcome) → checked result o ≡ step_stopped (length page.old) (length rows.old) (length tonnes.old) o }
        ensures stepped { Stepped (state self.old) page.old rows.old tonnes.old result (state self.new) page.new rows.new tonnes.new }
    {
        let page = page
            .first_chunk_mut::<SHORTEST_PAGE>()
            .ok_or(Fault::TooShort)?;
        let rows = rows
            .first_chunk_mut::<TABLE_ENTRIES>()
            .ok_or(Fault::TablesTooSmall)?;
        let tonnes = tonnes
            .first_chunk_mut::<TABLE_TONNES>()
            .ok_or(Fault::TablesTooSmall)?;
        Ok(self.next_line(page, rows, tonnes))
    }

    // Prints the next line, or nothing after the end.
    pub(crate) fn next_line(
        &mut self,
        page: &mut [u8; SHORTEST_PAGE],
        rows: &mut [u16; TABLE_ENTRIES],
        tonnes: &mut [u32; TABLE_TONNES],
    ) -> Option<usize>
        ensures { Stepped (state self.old) page.old rows.old tonnes.old (Ok result) (state self.new) page.new rows.new tonnes.new }
    {
        if self.ended {
            return None;
        }
        let course = &mut self.course;
        match read(course.sheet, course.place) {
            Ok(None) => None,
            Ok(Some(found)) => Some(course.obey(found.command, found.after, page, rows, tonnes)),
            Err(fault) => {
                let printed = course.refuse(&fault, page);
                self.ended = ends(&fault);
                Some(printed)
            }
        }
    }
}
