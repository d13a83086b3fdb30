// The rows of a worksheet.
ghost use Rattle.std.specs.Prelude.{◌≡◌, ℕ, ◌<◌, MatchOption, false, true, length, slice_index_or};
ghost use Rattle.bounded_list.specs.Items.{items};
ghost use Rattle.worksheet.specs.Rows.{Apart, blank, entry_in, names};

use crate::row::{Entry, Kind, Row};
use bounded_list::list::BoundedList;
use language::faults::HostRefusal;

// The rows that are filled: no two of them name the same field and kind.
#[derive(Clone, Copy)]
pub struct Rows {
    pub(crate) filled: BoundedList<Row, 64>,
    ghost apart: { Apart (items filled) },
}

impl Rows {
    ghost use Rattle.worksheet.specs.Sheet.{Put};

    // Where the first row stands that names a field and kind.
    fn place(&self, field: u8, kind: Kind) -> Option<usize>
        ensures { MatchOption result ((i : ℕ) → i < length (items self.now.filled) → names field kind (slice_index_or (items self.now.filled) i blank) ≡ false) (λ i. (i < length (items self.now.filled)) × (names field kind (slice_index_or (items self.now.filled) i blank) ≡ true) × ((k : ℕ) → k < i → names field kind (slice_index_or (items self.now.filled) k blank) ≡ false)) }
    {
        self.filled
            .as_slice()
            .iter()
            .position(|row| row.names(field, kind))
    }

    // What the rows say under a field and kind.
    pub(crate) fn entry(&self, field: u8, kind: Kind) -> Option<Entry>
        ensures { result ≡ entry_in field kind (items self.now.filled) }
    {
        let place = self.place(field, kind)?;
        Some(self.filled.as_slice()[place].entry)
    }

    // Sets a row: in the place of the one of the same field and kind, or as a new one if there is room.
    pub(crate) fn put(&mut self, row: Row) -> Result<(), HostRefusal>
        ensures { Put self.old row result self.new }
    {
        match self.place(row.field, row.entry.kind()) {
            Some(place) => self.filled.set(place, row),
            None if self.filled.is_full() => return Err(HostRefusal::Row),
            None => self.filled.push(row),
        }
        Ok(())
    }
}
