// The charge lines of a worksheet.
ghost use Rattle.std.specs.Prelude.{◌≡◌, ◌≤◌, length, unsigned_abs};
ghost use Rattle.bounded_list.specs.Items.{items};

use bounded_list::list::BoundedList;

// One charge line: a value charged to an account.
#[derive(Clone, Copy, PartialEq, Eq, Debug)]
pub struct Charge {
    pub account: u8,
    pub value: i32,
}

// The lines that are taken, in the order of their postings.
#[derive(Clone, Copy)]
pub struct Charges {
    pub(crate) taken: BoundedList<Charge, 128>,
    // how many may be taken in all
    pub(crate) most: usize,
    ghost within: { (length (items taken) ≤ most) × (most ≤ 128) },
}

impl Charge {
    ghost use Rattle.worksheet.specs.Sheet.{share};

    // What the line adds to an account.
    fn share(self, account: u8) -> i64
        ensures value { result ≡ share account self }
        ensures bound { unsigned_abs result ≤ 2147483648 }
    {
        if self.account == account {
            i64::from(self.value)
        } else {
            0
        }
    }
}

impl Charges {
    ghost use Rattle.worksheet.specs.Sheet.{total_of};

    // The total of an account, added up.
    pub(crate) fn total(&self, account: u8) -> i64
        ensures { result ≡ total_of account (items self.now.taken) }
    {
        let mut sum = 0;
        for charge in self.taken.as_slice() {
            sum += charge.share(account);
        }
        sum
    }
}
