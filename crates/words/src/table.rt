// An operator as a table of four bits.

// The result for each pair (own bit, operand's bit), in the order (0,0), (0,1), (1,0), (1,1).
#[derive(Clone, Copy, PartialEq, Eq, Debug)]
pub struct Table {
    pub neither: bool,
    pub operand_only: bool,
    pub own_only: bool,
    pub both: bool,
}
