// What a certain chain has come to.

// The account that a chain enters at last, and its excess. That the excess is no more than 63 lines can have is asked of those who hold one, and is no ghost
// field: what grow makes would have to show it, of lines that are no chain, too.
#[derive(Clone, Copy)]
pub struct Reach {
    pub account: u8,
    pub tonnes: u64,
}
