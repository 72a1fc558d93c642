// A list of greatest certain chains, read to its end.
ghost use Rattle.std.specs.Prelude.{◌≡◌, IfOk, OnOk};
ghost use Rattle.book.specs.Lines.{lines};
ghost use Rattle.book.specs.Outcome.{Outcome};
ghost use Rattle.listing.specs.Nexts.{next_stopped, row_entries};
ghost use Rattle.listing.specs.Wholes.{list_checked, Put, Whole};
ghost use Rattle.listing.specs.declared.whole.ListFault.TheVariants.{Chain, NoMemory};

use crate::finding::next_after;
use crate::walk::Walk;
use book::Book;
use chains::Fault;
use std::alloc::{AllocError, Global};

// A chain of the list, with its certain figure.
#[derive(Drop)]
pub struct Listed {
    pub chain: Vec<u16>,
    pub figure: u64,
}

// Why a list is not read.
#[derive(Drop)]
pub enum ListFault {
    // the refusal of next
    Chain(Fault),
    NoMemory,
}

impl From<Fault> for ListFault {
    ghost from_gives = { λ fault e. e ≡ Chain fault };

    fn from(fault: Fault) -> ListFault {
        ListFault::Chain(fault)
    }
}

impl From<AllocError> for ListFault {
    ghost from_gives = { λ _ e. e ≡ NoMemory };

    fn from(_error: AllocError) -> ListFault {
        ListFault::NoMemory
    }
}

// Puts a chain, with its figure, behind the list.
fn put(heap: Global, list: &mut Vec<Listed>, numbers: &[u16], figure: u64) -> Result<(), AllocError>
    ensures { OnOk result (Put list.old.items numbers.now figure list.new.items) }
{
    let chain = numbers.to_vec(heap)?;
    list.push(Listed { chain, figure })?;
    Ok(())
}

// Reads the list from its start to its end, by next_after from no lines on.
pub fn read_list(heap: Global, book: &Book, floor: u32) -> Result<Vec<Listed>, ListFault>
    ensures stop { (o : Outcome) → list_checked result o ≡ next_stopped (lines book.now) floor row_entries 0 o }
    ensures answer { IfOk result (λ v. Whole (lines book.now) floor v.items) }
{
    let mut list = Vec::new(heap);
    let mut last = Walk::new();
    while let Some((chain, figure)) = next_after(book, floor, &last)? {
        put(heap, &mut list, &chain, figure)?;
        last = chain;
    }
    Ok(list)
}
