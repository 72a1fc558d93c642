// Writing bytes and decimal numbers into a lent page, straight and with no memory between. Each call takes the page with a place and answers the next: a struct
// of the two would hold a reference, and each contract would say besides that it keeps it.
ghost use Rattle.std.specs.Prelude.{◌+◌, ◌≤◌, length, decimal};
ghost use Rattle.sheet.specs.Page.{Put};

// Puts the bytes at a place of the page, and answers the place after them.
pub fn put(page: &mut [u8], at: usize, bytes: &[u8]) -> usize
    requires { at + length bytes.now ≤ length page.old }
    ensures { Put page.old at bytes.now page.new result }
{
    let after = at + bytes.len();
    page[at..after].copy_from_slice(bytes);
    after
}

// Puts a number's decimal digits, at most 20, at a place of the page, and answers the place after them.
pub fn put_decimal(page: &mut [u8], at: usize, n: usize) -> usize
    requires { at + 20 ≤ length page.old }
    ensures put { Put page.old at (decimal n) page.new result }
    ensures short { result ≤ at + 20 }
{
    let digit = b'0' + (n % 10) as u8;
    if n < 10 {
        return put(page, at, &[digit]);
    }
    let last = put_decimal(page, at, n / 10);
    put(page, last, &[digit])
}
