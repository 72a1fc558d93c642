// The lines of a statement, written at the start of a page. Each call that is handed fixed words requires that they are 16 bytes at most: they are byte
// strings where they stand, and a type for short words would be made at every one of them.
ghost use Rattle.std.specs.Prelude.{ℕ, ◌+◌, ◌*◌, ◌<◌, ◌≤◌, ◌∷◌, ◌++◌, length, codes, decimal, ◌≢◌};
ghost use Rattle.book.specs.Faults.{number, carries};
ghost use Rattle.book.specs.Limits.{most_lines};
ghost use Rattle.book.specs.Outcome.{book};
ghost use Rattle.sheet.specs.Page.{Put};
ghost use Rattle.sheet.specs.Statements.{text_line, detail, refusal_head, refusal_text, chain_text, numbers_text};
ghost use Rattle.book.specs.declared.entries.Fault.{Fault as RawFault};
ghost use Rattle.chains.specs.Faults.{layer_of as chain_layer, number as chain_number, carries as chain_carries};
ghost use Rattle.chains.specs.declared.faults.Fault.TheVariants.{Line};
ghost use Rattle.flow.specs.Chains.{longest_chain};
ghost use Rattle.std.specs.List.{AllByRecursion};

use crate::SHORTEST_PAGE;
use crate::page::{put, put_decimal};
use book::Fault as BookFault;
use chains::Fault as ChainFault;

// A line of fixed words.
pub fn say(page: &mut [u8; SHORTEST_PAGE], words: &[u8]) -> usize
    requires { length words.now ≤ 16 }
    ensures { Put page.old 0 (text_line words.now) page.new result }
{
    let end = put(page, 0, words);
    put(page, end, b"\n")
}

// A line of fixed words and the text of a note.
pub fn say_text(page: &mut [u8; SHORTEST_PAGE], words: &[u8], text: &[u8]) -> usize
    requires { (length words.now ≤ 16) × (length text.now ≤ 16) }
    ensures { Put page.old 0 (text_line (words.now ++ text.now)) page.new result }
{
    let after = put(page, 0, words);
    let end = put(page, after, text);
    put(page, end, b"\n")
}

// A line of fixed words and a number.
pub fn say_number(page: &mut [u8; SHORTEST_PAGE], words: &[u8], n: usize) -> usize
    requires { length words.now ≤ 16 }
    ensures { Put page.old 0 (text_line (words.now ++ decimal n)) page.new result }
{
    let after = put(page, 0, words);
    let end = put_decimal(page, after, n);
    put(page, end, b"\n")
}

// A refused call of the book, by the place of its command.
pub fn say_book_refusal(page: &mut [u8; SHORTEST_PAGE], fault: &BookFault, place: usize) -> usize
    ensures { Put page.old 0 (text_line (refusal_text book (number fault.now) (carries fault.now) place)) page.new result }
{
    let head = put_head(page, b"book", fault.number(), place);
    let end = put_detail(page, head, fault);
    put(page, end, b"\n")
}

// A refusal with no details, by its layer's name, its number and the place of its command.
pub fn say_refusal(page: &mut [u8; SHORTEST_PAGE], layer: &[u8], number: u8, place: usize) -> usize
    requires { length layer.now ≤ 5 }
    ensures { Put page.old 0 (text_line (refusal_head layer.now number place)) page.new result }
{
    let end = put_head(page, layer, number, place);
    put(page, end, b"\n")
}

fn put_head(page: &mut [u8; SHORTEST_PAGE], layer: &[u8], number: u8, place: usize) -> usize
    requires { length layer.now ≤ 5 }
    ensures put { Put page.old 0 (refusal_head layer.now number place) page.new result }
    ensures short { result ≤ 60 }
{
    let word = put(page, 0, b"refused ");
    let name = put(page, word, layer);
    let space = put(page, name, b" ");
    put_number_and_place(page, space, number, place)
}

fn put_number_and_place(page: &mut [u8], at: usize, number: u8, place: usize) -> usize
    requires { at + 44 ≤ length page.old }
    ensures put { Put page.old at (decimal number ++ (codes " at " ++ decimal place)) page.new result }
    ensures short { result ≤ at + 44 }
{
    let after = put_decimal(page, at, number as usize);
    let next = put(page, after, b" at ");
    put_decimal(page, next, place)
}

// The account that differs and both its totals, where that is the fault.
fn put_detail(page: &mut [u8], at: usize, fault: &BookFault) -> usize
    requires { at + 80 ≤ length page.old }
    ensures put { Put page.old at (detail (number fault.now) (carries fault.now)) page.new result }
    ensures short { result ≤ at + 80 }
{
    match fault {
        BookFault::Unbalanced(account, entering, leaving) => {
            put_totals(page, at, *account, *entering, *leaving)
        }
        _ => at,
    }
}

fn put_totals(page: &mut [u8], at: usize, account: u8, entering: u32, leaving: u32) -> usize
    requires { at + 80 ≤ length page.old }
    ensures put { Put page.old at (codes " account " ++ (decimal account ++ (codes " in " ++ (decimal entering ++ (codes " out " ++ decimal leaving))))) page.new result }
    ensures short { result ≤ at + 80 }
{
    let a = put(page, at, b" account ");
    let b = put_decimal(page, a, account as usize);
    let c = put(page, b, b" in ");
    let d = put_decimal(page, c, entering as usize);
    let e = put(page, d, b" out ");
    put_decimal(page, e, leaving as usize)
}

// A line of fixed words, a number of tonnes and the lines of a chain.
pub fn say_chain(page: &mut [u8; SHORTEST_PAGE], words: &[u8], tonnes: u64, chain: &[u16]) -> usize
    requires short { (length words.now ≤ 8) × (length chain.now ≤ longest_chain) }
    requires posted { AllByRecursion (λ n. n < most_lines) chain.now }
    ensures { Put page.old 0 (text_line (chain_text words.now tonnes chain.now)) page.new result }
{
    let after = put(page, 0, words);
    let colon = put_decimal(page, after, tonnes as usize);
    let first = put(page, colon, b":");
    let end = put_numbers(page, first, chain);
    put(page, end, b"\n")
}

// Each number behind a space. That they are numbers of lines is asked of the chain or row that is shown, and is no type of its own: chains and rows are slices of
// plain numbers in every public call.
fn put_numbers(page: &mut [u8], at: usize, numbers: &[u16]) -> usize
    requires room { at + 4 * length numbers.now + 24 ≤ length page.old }
    requires posted { AllByRecursion (λ n. n < most_lines) numbers.now }
    ensures put { Put page.old at (numbers_text numbers.now) page.new result }
    ensures short { result ≤ at + 4 * length numbers.now }
{
    let mut end = at;
    for number in numbers {
        end = put_number(page, end, *number);
    }
    end
}

fn put_number(page: &mut [u8], at: usize, number: u16) -> usize
    requires room { at + 24 ≤ length page.old }
    requires posted { number < most_lines }
    ensures put { Put page.old at (32 ∷ decimal number) page.new result }
    ensures short { result ≤ at + 4 }
{
    let digits = put(page, at, b" ");
    put_decimal(page, digits, number as usize)
}

// A refused question about chains, by the place of its command.
pub fn say_chain_refusal(page: &mut [u8; SHORTEST_PAGE], fault: &ChainFault, place: usize) -> usize
    requires { (at : ℕ) (of : RawFault) → fault.now ≢ Line at of }
    ensures { Put page.old 0 (text_line (refusal_text (chain_layer fault.now) (chain_number fault.now) (chain_carries fault.now) place)) page.new result }
{
    match fault {
        ChainFault::Book(of) => say_book_refusal(page, of, place),
        _ => say_refusal(page, b"chain", fault.number(), place),
    }
}
