// A record that was checked, and what a host made from it may keep.
ghost use Rattle.std.specs.Prelude.{◌≤◌};
ghost use Rattle.bounded_list.specs.Items.{items};
ghost use Rattle.record_host.specs.Lawful.{Lawful};

use bounded_list::list::BoundedList;

// The words of the longest record: two counts, 512 field numbers, 512 values.
pub const MOST_WORDS: usize = 1026;

// Only `check` makes one, so its words are lawful.
#[derive(Clone, Copy)]
pub struct CheckedRecord {
    pub(crate) words: BoundedList<u32, MOST_WORDS>,
    // accounts open in the host to come, from 0 on
    pub(crate) accounts: u32,
    // charge lines that it may take
    pub(crate) lines: u32,
    ghost lawful: { Lawful (items words) },
    ghost within: { (accounts ≤ 256) × (lines ≤ 65535) },
}
