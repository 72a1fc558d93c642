// The tables that rows are written into: their size.
ghost use Rattle.std.specs.Prelude.{◌≡◌, ◌≤◌, OnOk};
ghost use Rattle.book.specs.Outcome.{Outcome, stopped};
ghost use Rattle.chains.specs.Faults.{checked};
ghost use Rattle.dividing.specs.Tables.{table_entries, table_tonnes, table_stops};

use crate::{TABLE_ENTRIES, TABLE_TONNES};
use chains::Fault;

pub fn check_tables(entries: usize, tonnes: usize) -> Result<(), Fault>
    ensures stop { (o : Outcome) → checked result o ≡ stopped (table_stops entries tonnes) o }
    ensures passed { OnOk result ((table_entries ≤ entries) × (table_tonnes ≤ tonnes)) }
{
    if entries < TABLE_ENTRIES || tonnes < TABLE_TONNES {
        return Err(Fault::TooSmall);
    }
    Ok(())
}
