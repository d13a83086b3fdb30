// Filling the rows of a worksheet.
ghost use Rattle.std.specs.Prelude.{◌≡◌};
ghost use Rattle.worksheet.specs.Rows.{entry_in, kind_of};
ghost use Rattle.worksheet.specs.Sheet.{RowSet, filled_rows, meaning, with_amount, with_entry, with_flag};

use crate::row::{Entry, Row};
use crate::sheet::Worksheet;
use language::faults::{Fault, HostRefusal};

impl Worksheet {
    // Sets what a field is said to have.
    fn set(&mut self, field: u32, entry: Entry) -> Result<(), Fault>
        ensures { RowSet (entry_in field (kind_of entry) (filled_rows self.old.rows)) (with_entry (meaning self.old) field entry) field self.old result self.new }
    {
        let field = u8::try_from(field).map_err(|_| HostRefusal::Row)?;
        // Stays a copy that is changed and written back whole: the rules of the engine name this form for the rows.
        let mut rows = self.rows;
        rows.put(Row { field, entry })?;
        self.rows = rows;
        Ok(())
    }

    // Sets the amount of a field: 63 for a field above 255, or for a new row when 64 are filled.
    pub fn set_amount(&mut self, field: u32, value: i32) -> Result<(), Fault>
        ensures { RowSet ((meaning self.old).amount field) (with_amount (meaning self.old) field value) field self.old result self.new }
    {
        self.set(field, Entry::Amount(value))
    }

    // Sets the flag of a field, and refuses as for amounts.
    pub fn set_flag(&mut self, field: u32, flag: bool) -> Result<(), Fault>
        ensures { RowSet ((meaning self.old).flag field) (with_flag (meaning self.old) field flag) field self.old result self.new }
    {
        self.set(field, Entry::Flag(flag))
    }
}
