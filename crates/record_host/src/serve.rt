// What the record host does: its making, asking and posting.
ghost use Rattle.std.specs.Prelude.{◌≡◌};
ghost use Rattle.record_host.specs.Checked.{record_of};
ghost use Rattle.record_host.specs.Says.{Made, Opened};
ghost use Rattle.record_host.specs.Means.{meaning};

use crate::checked::CheckedRecord;
use crate::read::{amount_of, flag_of};
use crate::record::RecordHost;
use crate::totals::Totals;
use host::Host;
use language::faults::Stop;

impl RecordHost {
    // Makes the host of a checked record: its accounts open at 0, all its lines left.
    pub fn new(checked: CheckedRecord) -> RecordHost
        ensures { Made (record_of checked) checked.accounts checked.lines (meaning result) }
    {
        RecordHost {
            checked,
            totals: Totals::none(checked.lines),
        }
    }

    // The total of an account, if it is open.
    pub fn total(&self, account: u8) -> Option<i64>
        ensures { result ≡ (meaning self.now).account account }
    {
        if u32::from(account) >= self.checked.accounts {
            return None;
        }
        Some(self.totals.sums[usize::from(account)])
    }

    // How many accounts are open, from 0 on.
    pub fn accounts(&self) -> u32
        ensures { Opened (meaning self.now) result }
    {
        self.checked.accounts
    }

    // The charge lines left.
    pub fn lines(&self) -> u32
        ensures { result ≡ (meaning self.now).lines }
    {
        self.totals.left
    }
}

impl Host for RecordHost {
    ghost means = { meaning };

    // The amount that the record has for a field, if it has one.
    fn amount(&self, field: u8) -> Result<i32, Stop> {
        amount_of(self.checked.words.as_slice(), field).ok_or(Stop::NothingThere)
    }

    // The flag that the record has for a field, if it has one.
    fn flag(&self, field: u8) -> Result<bool, Stop> {
        flag_of(self.checked.words.as_slice(), field).ok_or(Stop::NothingThere)
    }

    // Posts by adding to the account's total.
    fn post(&mut self, account: u8, value: i32) -> Result<(), Stop> {
        if u32::from(account) >= self.checked.accounts || self.totals.left == 0 {
            return Err(Stop::PostingRefused);
        }
        // Stays a copy that is changed and written back whole: the rules of the engine name this form for the bound on totals.
        let mut totals = self.totals;
        totals.charge(account, value);
        self.totals = totals;
        Ok(())
    }
}
