// A statement of a sheet: it keeps its own book and the last chain listed, and each step prints its next line.
use arrayvec::ArrayVec;
use book::Book;
use chains::LONGEST_CHAIN;

mod commands;
mod refusing;
mod runs;
mod steps;

#[derive(Drop)]
pub struct Statement<'a> {
    course: Course<'a>,
    // beside the course, which is no Option: the state that the contracts name has the place and the book of an ended statement, too
    ended: bool,
}

// How far a statement has come.
#[derive(Drop)]
pub struct Course<'a> {
    sheet: &'a [u8],
    place: usize,
    book: Book,
    // of a list or divide command that is being printed: so many of its lines are printed
    count: usize,
    // the last chain listed; none is listed yet where it has no lines
    last: ArrayVec<u16, LONGEST_CHAIN>,
}
