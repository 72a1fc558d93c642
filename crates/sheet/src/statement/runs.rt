// Runs of a statement's steps into an output that grows.
ghost use Rattle.sheet.specs.Running.{Added, Ran};
ghost use Rattle.sheet.specs.Stepping.{state};

use crate::SHORTEST_PAGE;
use crate::statement::Statement;
use dividing::{TABLE_ENTRIES, TABLE_TONNES};
use std::alloc::AllocError;

impl<'a> Statement<'a> {
    // Makes as many steps as are asked for and adds every line to the output; answers true where the end came before.
    pub fn run(&mut self, out: &mut Vec<u8>, most: usize) -> Result<bool, AllocError>
        ensures { Ran (state self.old) out.old.items most result (state self.new) out.new.items }
    {
        let mut page = [0u8; SHORTEST_PAGE];
        let mut rows = [0u16; TABLE_ENTRIES];
        let mut tonnes = [0u32; TABLE_TONNES];
        for _ in 0..most {
            if self.add_line(&mut page, &mut rows, &mut tonnes, out)? {
                return Ok(true);
            }
        }
        Ok(false)
    }

    // One step; room for its line is found first, so that no line is lost for want of memory.
    fn add_line(
        &mut self,
        page: &mut [u8; SHORTEST_PAGE],
        rows: &mut [u16; TABLE_ENTRIES],
        tonnes: &mut [u32; TABLE_TONNES],
        out: &mut Vec<u8>,
    ) -> Result<bool, AllocError>
        ensures { Added (state self.old) out.old.items result (state self.new) out.new.items }
    {
        out.reserve(SHORTEST_PAGE)?;
        match self.next_line(page, rows, tonnes) {
            Some(length) => {
                out.extend_from_slice(&page[..length])?;
                Ok(false)
            }
            None => Ok(true),
        }
    }
}
