// A refused reading of the sheet.
ghost use Rattle.std.specs.Prelude.{◌≡◌, ◌≤◌, ◌≢◌};
ghost use Rattle.sheet.specs.Commands.{longest_sheet};
ghost use Rattle.sheet.specs.Page.{Put};
ghost use Rattle.sheet.specs.Reading.{number, carries};
ghost use Rattle.sheet.specs.Statements.{is_last, refused_at, refused_line};
ghost use Rattle.sheet.specs.Stepping.{running, left_behind};

use crate::command::Fault;
use crate::statement::Course;
use crate::text::say_refusal;
use crate::{LONGEST_COMMAND, SHORTEST_PAGE};

impl Course<'_> {
    // Prints the refusal, and goes on behind the command where the statement does not end.
    pub fn refuse(&mut self, fault: &Fault, page: &mut [u8; SHORTEST_PAGE]) -> usize
        requires { (number fault.now ≢ 12) → self.old.place ≤ longest_sheet }
        ensures page { Put page.old 0 (refused_line (running self.old) (number fault.now) (carries fault.now)) page.new result }
        ensures next { running self.new ≡ left_behind (running self.old) (number fault.now) }
    {
        let place = self.refused_place(fault);
        self.leave(fault);
        say_refusal(page, b"sheet", fault.number(), place)
    }

    // The place of the command that is refused, and 0 where the sheet is too long.
    fn refused_place(&self, fault: &Fault) -> usize
        ensures { result ≡ refused_at (number fault.now) self.now.place }
    {
        match fault {
            Fault::OutOfRange => 0,
            _ => self.place,
        }
    }

    // Goes on behind a command whose rule or note is refused.
    fn leave(&mut self, fault: &Fault)
        requires { (number fault.now ≢ 12) → self.old.place ≤ longest_sheet }
        ensures { running self.new ≡ left_behind (running self.old) (number fault.now) }
    {
        if ends(fault) {
            return;
        }
        match fault {
            Fault::RuleByte(_) => self.go_on(self.place + 2),
            _ => self.go_on(self.place + LONGEST_COMMAND),
        }
    }
}

// Whether the statement ends with the refusal.
pub fn ends(fault: &Fault) -> bool
    ensures { result ≡ is_last (number fault.now) }
{
    matches!(
        fault,
        Fault::OutOfRange | Fault::UnknownCommand(_) | Fault::CutOff(_)
    )
}
