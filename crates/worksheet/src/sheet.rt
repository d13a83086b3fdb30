// The worksheet.
use crate::charges::Charges;
use crate::rows::Rows;

// A host of rows and charge lines, with accounts open from 0 on.
#[derive(Clone, Copy)]
pub struct Worksheet {
    pub(crate) rows: Rows,
    pub(crate) charges: Charges,
    pub(crate) accounts: u32,
}
