//! What every split of a book agrees on: the theorems that the product stands on, each on the contract of a function.
#![tactic(auto)]

mod agreement;
mod listing;
mod worked;

pub use agreement::{
    avoiding_reaches_figure, certain_iff_excess, dividing_is_split, excess_both_ways,
    figure_is_least, split_iff_balanced, split_puts_excess,
};
pub use listing::{greatest_by_one_line, list_is_complete, part_certain};
pub use worked::worked_books_stand;
