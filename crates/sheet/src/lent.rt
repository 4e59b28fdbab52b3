// A sheet as a caller lends it: its numbers and slices, which may hold anything until the check has accepted them.
use crate::Size;

// What was measured: the value of each row in each column, and each row's label code.
#[derive(Clone, Copy)]
pub struct Measured<'a> {
    pub size: Size,
    pub values: &'a [f64],
    pub codes: &'a [u8],
}

// The same with each column's sorted order and cuts, as the preparer lists them.
#[derive(Clone, Copy)]
pub struct LentSheet<'a> {
    pub measured: Measured<'a>,
    pub order: &'a [u16],
    pub cuts: &'a [u16],
    pub counts: &'a [u16],
}
