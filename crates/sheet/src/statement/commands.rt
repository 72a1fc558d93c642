// A statement's commands, obeyed one line at a time.
ghost use Rattle.std.specs.Prelude.{◌≡◌};
ghost use Rattle.book.specs.Lines.{lines};
ghost use Rattle.sheet.specs.Commands.{Fit, meaning, list, divide};
ghost use Rattle.sheet.specs.Obeying.{Line, Did};
ghost use Rattle.sheet.specs.Statements.{goes};
ghost use Rattle.sheet.specs.Stepping.{running};

use crate::SHORTEST_PAGE;
use crate::command::Command;
use crate::last::go_to_next;
use crate::obeying::{amend, post, strike};
use crate::rows::{divide_by, say_row};
use crate::statement::Course;
use crate::text::{say, say_chain, say_chain_refusal, say_number, say_text};
use dividing::{TABLE_ENTRIES, TABLE_TONNES};

impl Course<'_> {
    // Goes on behind a command.
    pub(crate) fn go_on(&mut self, after: usize)
        ensures { running self.new ≡ goes (running self.old) after (lines self.old.book) }
    {
        self.place = after;
        self.count = 0;
        self.last.clear();
    }

    // Prints the next line of a command, and goes on behind it after its last.
    // The page and the tables are passed on as three references: behind a struct of them each contract would say besides that its fields keep their references.
    pub(crate) fn obey(
        &mut self,
        command: Command<'_>,
        after: usize,
        page: &mut [u8; SHORTEST_PAGE],
        rows: &mut [u16; TABLE_ENTRIES],
        tonnes: &mut [u32; TABLE_TONNES],
    ) -> usize
        requires { Fit (meaning command) }
        ensures { Did (running self.old) (running self.new) after (meaning command.entry) page.old page.new result rows.old rows.new tonnes.old tonnes.new }
    {
        match command {
            Command::Post { from, to, amount } => {
                let printed = post(&mut self.book, from, to, amount, self.place, page);
                self.go_on(after);
                printed
            }
            Command::Amend { line, amount } => {
                let printed = amend(&mut self.book, line, amount, self.place, page);
                self.go_on(after);
                printed
            }
            Command::Strike { line } => {
                let printed = strike(&mut self.book, line, self.place, page);
                self.go_on(after);
                printed
            }
            Command::Clear => {
                self.book.clear();
                self.go_on(after);
                say(page, b"cleared")
            }
            Command::Note(text) => {
                self.go_on(after);
                say_text(page, b"note ", text)
            }
            Command::List { floor } => self.obey_list(floor, after, page),
            Command::Divide { rule } => self.obey_divide(rule, after, page, rows, tonnes),
        }
    }

    // The next chain of a list, the count of its chains, or its refusal.
    fn obey_list(&mut self, floor: u32, after: usize, page: &mut [u8; SHORTEST_PAGE]) -> usize
        ensures { Line (running self.old) (running self.new) after (list floor) page.old page.new result }
    {
        match go_to_next(&mut self.last, &self.book, floor) {
            Ok(Some(figure)) => {
                self.count = self.count.saturating_add(1);
                say_chain(page, b"certain ", figure, self.last.as_slice())
            }
            Ok(None) => {
                let count = self.count;
                self.go_on(after);
                say_number(page, b"listed ", count)
            }
            Err(fault) => {
                let place = self.place;
                self.go_on(after);
                say_chain_refusal(page, &fault, place)
            }
        }
    }

    // The next row of a dividing, the count of its rows, or its refusal; the tables are filled first.
    fn obey_divide(
        &mut self,
        rule: u8,
        after: usize,
        page: &mut [u8; SHORTEST_PAGE],
        rows: &mut [u16; TABLE_ENTRIES],
        tonnes: &mut [u32; TABLE_TONNES],
    ) -> usize
        ensures { Did (running self.old) (running self.new) after (divide rule) page.old page.new result rows.old rows.new tonnes.old tonnes.new }
    {
        match divide_by(&self.book, rule, rows, tonnes) {
            Ok(count) => {
                let row = self.count;
                if row < count {
                    self.count = row + 1;
                    say_row(page, rows, tonnes, row)
                } else {
                    self.go_on(after);
                    say_number(page, b"divided ", count)
                }
            }
            Err(fault) => {
                let place = self.place;
                self.go_on(after);
                say_chain_refusal(page, &fault, place)
            }
        }
    }
}
