// Checking a record: refused by number, or checked.
ghost use Rattle.std.specs.Prelude.{Decides};
ghost use Rattle.record_host.specs.Lawful.{Counted, Lawful};
ghost use Rattle.record_host.specs.Checked.{Checked};

use crate::checked::CheckedRecord;
use crate::parts::Parts;
use bounded_list::list::BoundedList;
use language::faults::{Fault, HostRefusal};

// Whether the counts and the length fit each other.
fn counted(words: &[u32]) -> bool
    ensures { Decides result (Counted words.now) }
{
    if words.len() < 2 || words[0] > 256 || words[1] > 256 {
        return false;
    }
    words.len() == 2 + 2 * (words[0] as usize + words[1] as usize)
}

// Whether words are a declaration record.
fn lawful(words: &[u32]) -> bool
    ensures { Decides result (Lawful words.now) }
{
    counted(words) && Parts::of(words).lawful()
}

// Checks a record, and what the host to be made from it may keep: 61 for other words, whatever their length and content, then 62 for more than 256 accounts or 65,535 charge lines.
pub fn check(words: &[u32], accounts: u32, lines: u32) -> Result<CheckedRecord, Fault>
    ensures { Checked words.now accounts lines result }
{
    if !lawful(words) {
        return Err(HostRefusal::OtherRecord.into());
    }
    if accounts > 256 || lines > 65_535 {
        return Err(HostRefusal::Limits.into());
    }
    Ok(CheckedRecord {
        words: BoundedList::from_slice(words, 0),
        accounts,
        lines,
    })
}
