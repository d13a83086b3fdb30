// What the worksheet does: its making, asking and posting, and what it shows.
ghost use Rattle.std.specs.Prelude.{◌≡◌};
ghost use Rattle.host.specs.Meaning.{answered, left, posting};
ghost use Rattle.worksheet.specs.Sheet.{Made, charges_of, filled_in, listed, meaning};

use crate::charges::{Charge, Charges};
use crate::row::{Entry, Kind, Row};
use crate::rows::Rows;
use crate::sheet::Worksheet;
use bounded_list::list::BoundedList;
use host::Host;
use language::faults::{Fault, HostRefusal, Stop};

impl Worksheet {
    // Makes a worksheet with no row filled: 62 for more than 256 accounts or 128 charge lines.
    pub fn new(accounts: u32, lines: u32) -> Result<Worksheet, Fault>
        ensures { Made accounts lines result }
    {
        if accounts > 256 || lines > 128 {
            return Err(HostRefusal::Limits.into());
        }
        let unused = Row {
            field: 0,
            entry: Entry::Amount(0),
        };
        let rows = Rows {
            filled: BoundedList::empty(unused),
        };
        let unused = Charge {
            account: 0,
            value: 0,
        };
        let charges = Charges {
            taken: BoundedList::empty(unused),
            most: lines as usize,
        };
        Ok(Worksheet {
            rows,
            charges,
            accounts,
        })
    }

    // The charge lines, in the order of their postings.
    pub fn charges(&self) -> &[Charge]
        ensures { result.now ≡ charges_of self.now }
    {
        self.charges.taken.as_slice()
    }

    // The total of an account, if it is open.
    pub fn total(&self, account: u8) -> Option<i64>
        ensures { result ≡ (meaning self.now).account account }
    {
        if u32::from(account) >= self.accounts {
            return None;
        }
        Some(self.charges.total(account))
    }

    // The charge lines left.
    pub fn lines(&self) -> u32
        ensures { result ≡ (meaning self.now).lines }
    {
        (self.charges.most - self.charges.taken.len()) as u32
    }
}

impl Host for Worksheet {
    ghost means = { meaning };

    // The amount in the row of a field, if there is one.
    // Stays beside the one for flags: the trait asks for both, and each takes another case, with its type, out of an entry.
    fn amount(&self, field: u8) -> Result<i32, Stop> {
        match self.rows.entry(field, Kind::Amount) {
            Some(Entry::Amount(amount)) => Ok(amount),
            _ => Err(Stop::NothingThere),
        }
    }

    // The flag in the row of a field, if there is one.
    fn flag(&self, field: u8) -> Result<bool, Stop> {
        match self.rows.entry(field, Kind::Flag) {
            Some(Entry::Flag(flag)) => Ok(flag),
            _ => Err(Stop::NothingThere),
        }
    }

    // Posts by writing a charge line; also said is what becomes of the lines and the rows.
    fn post(&mut self, account: u8, value: i32) -> Result<(), Stop>
        ensures answer { result ≡ answered (posting (meaning self.old) account value) }
        ensures after { meaning self.new ≡ left (posting (meaning self.old) account value) (meaning self.old) }
        ensures charges { charges_of self.new ≡ listed result (charges_of self.old) account value }
        ensures filled { filled_in self.new ≡ filled_in self.old }
    {
        if u32::from(account) >= self.accounts || self.charges.taken.len() == self.charges.most {
            return Err(Stop::PostingRefused);
        }
        self.charges.taken.push(Charge { account, value });
        Ok(())
    }
}
