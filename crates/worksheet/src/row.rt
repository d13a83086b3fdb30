// A row of a worksheet.
ghost use Rattle.std.specs.Prelude.{◌≡◌};

// What a row says of its field.
#[derive(Clone, Copy, PartialEq, Eq, Debug)]
pub enum Entry {
    Amount(i32),
    Flag(bool),
}

// Whether an entry is an amount or a flag.
#[derive(Clone, Copy, PartialEq, Eq, Debug)]
pub enum Kind {
    Amount,
    Flag,
}

// One row: what is said of one field.
#[derive(Clone, Copy, PartialEq, Eq, Debug)]
pub struct Row {
    pub(crate) field: u8,
    pub(crate) entry: Entry,
}

impl Entry {
    ghost use Rattle.worksheet.specs.Rows.{kind_of};

    pub(crate) fn kind(self) -> Kind
        ensures { result ≡ kind_of self }
    {
        match self {
            Entry::Amount(_) => Kind::Amount,
            Entry::Flag(_) => Kind::Flag,
        }
    }
}

impl Row {
    ghost use Rattle.worksheet.specs.Rows.{names};

    // Whether the row says something of this kind of this field.
    pub(crate) fn names(self, field: u8, kind: Kind) -> bool
        ensures { result ≡ names field kind self }
    {
        self.field == field && self.entry.kind() == kind
    }
}
