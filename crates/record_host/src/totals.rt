// One total an account, and the charge lines.
ghost use Rattle.std.specs.Prelude.{◌≡◌, ℕ, ◌+ℤ◌, ◌-◌, ◌*◌, ◌<◌, ◌≤◌, length, pos, slice_index_or, slice_set, unsigned_abs};

// No total lies further from zero than 2,147,483,648 times the lines taken: so no sum overflows.
#[derive(Clone, Copy, PartialEq, Eq, Debug)]
pub struct Totals {
    pub(crate) sums: [i64; 256],
    // charge lines at the making
    pub(crate) most: u32,
    // charge lines left
    pub(crate) left: u32,
    ghost whole: { length sums ≡ 256 },
    ghost lines: { (left ≤ most) × (most ≤ 65535) },
    ghost bound: { (a : ℕ) → unsigned_abs (slice_index_or sums a (pos 0)) ≤ 2147483648 * (most - left) },
}

impl Totals {
    // All at zero, and no line taken.
    pub(crate) fn none(lines: u32) -> Totals
        requires { lines ≤ 65535 }
        ensures sums { (a : ℕ) → slice_index_or result.sums a (pos 0) ≡ pos 0 }
        ensures left { result.left ≡ lines }
    {
        Totals {
            sums: [0; 256],
            most: lines,
            left: lines,
        }
    }

    // Adds a charge, which takes a line.
    pub(crate) fn charge(&mut self, account: u8, value: i32)
        requires { 0 < self.old.left }
        ensures sums { self.new.sums ≡ slice_set self.old.sums account (slice_index_or self.old.sums account (pos 0) +ℤ value) }
        ensures most { self.new.most ≡ self.old.most }
        ensures left { self.new.left ≡ self.old.left - 1 }
    {
        self.sums[usize::from(account)] += i64::from(value);
        self.left -= 1;
    }
}
