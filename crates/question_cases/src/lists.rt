// Cases of whole lists.
use anyhow::anyhow;
use book::Book;
use case_words::{Lines, Refusal};
use chains::Fault;
use listing::{ListFault, Listed, read_list};
use std::alloc::Global;
use std::fmt;

#[derive(Drop)]
pub struct List(Result<Vec<Listed>, Fault>);

// Each chain of the whole list with its figure, and their count.
impl fmt::Display for List {
    fn fmt<W: fmt::Write>(&self, f: &mut fmt::Formatter<W>) -> fmt::Result {
        match &self.0 {
            Ok(list) => {
                for listed in list {
                    let figure = listed.figure;
                    let lines = Lines(&listed.chain);
                    write!(f, "{figure} on{lines}; ")?;
                }
                let count = list.len();
                write!(f, "listed {count}")
            }
            Err(fault) => {
                let refusal = Refusal(*fault);
                write!(f, "{refusal}")
            }
        }
    }
}

pub fn listed(heap: Global, book: &Book, floor: u32) -> anyhow::Result<List> {
    match read_list(heap, book, floor) {
        Ok(list) => Ok(List(Ok(list))),
        Err(ListFault::Chain(fault)) => Ok(List(Err(fault))),
        Err(ListFault::NoMemory) => Err(anyhow!("no memory for a list")),
    }
}
