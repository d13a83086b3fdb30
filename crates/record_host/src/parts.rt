// The parts of a record.
ghost use Rattle.std.specs.Prelude.{◌≡◌, ◌+◌, length, Decides};
ghost use Rattle.record_host.specs.Lawful.{Counted, amounts, flags, values};
ghost use Rattle.std.specs.List.Sorted.{IsStrictlyIncreasing};
ghost use Rattle.record_host.specs.Parts.{Given, NoneAbove, part};

// The numbers of some fields, and a value for each in the same order.
#[derive(Clone, Copy, PartialEq, Eq, Debug)]
pub(crate) struct Group<'a> {
    pub(crate) fields: &'a [u32],
    pub(crate) values: &'a [u32],
}

// The groups of a record: fields with an amount, and fields with a flag.
#[derive(Clone, Copy, PartialEq, Eq, Debug)]
pub(crate) struct Parts<'a> {
    pub(crate) amounts: Group<'a>,
    pub(crate) flags: Group<'a>,
}

impl<'a> Group<'a> {
    // The value of a field, if its number is among those of the group.
    pub(crate) fn value(self, field: u8) -> Option<u32>
        requires rising { IsStrictlyIncreasing self.fields.now }
        requires paired { length self.values.now ≡ length self.fields.now }
        ensures { Given self.entry.fields.now self.entry.values.now field result }
    {
        let place = self.fields.binary_search(&u32::from(field)).ok()?;
        Some(self.values[place])
    }
}

// Whether words rise.
pub(crate) fn rises(words: &[u32]) -> bool
    ensures { Decides result (IsStrictlyIncreasing words.now) }
{
    words.is_sorted_by(|one, next| one < next)
}

// Whether no word is above a number.
pub(crate) fn up_to(words: &[u32], most: u32) -> bool
    ensures { Decides result (NoneAbove most words.now) }
{
    words.iter().all(|word| *word <= most)
}

impl<'a> Parts<'a> {
    // The parts of words whose counts and length fit each other.
    pub(crate) fn of(words: &'a [u32]) -> Parts<'a>
        requires { Counted words.now }
        ensures amount_fields { result.amounts.fields.now ≡ part words.now 2 (amounts words.now) }
        ensures amount_values { result.amounts.values.now ≡ part words.now (values words.now) (amounts words.now) }
        ensures flag_fields { result.flags.fields.now ≡ part words.now (2 + amounts words.now) (flags words.now) }
        ensures flag_values { result.flags.values.now ≡ part words.now (values words.now + amounts words.now) (flags words.now) }
    {
        let amounts = words[0] as usize;
        let flags = words[1] as usize;
        let (fields, values) = words[2..].split_at(amounts + flags);
        let (amount_fields, flag_fields) = fields.split_at(amounts);
        let (amount_values, flag_values) = values.split_at(amounts);
        Parts {
            amounts: Group {
                fields: amount_fields,
                values: amount_values,
            },
            flags: Group {
                fields: flag_fields,
                values: flag_values,
            },
        }
    }

    // Whether the numbers of each group rise and are to 255, and the values of the flags are 0 or 1.
    pub(crate) fn lawful(self) -> bool
        ensures { Decides result (IsStrictlyIncreasing self.entry.amounts.fields.now × IsStrictlyIncreasing self.entry.flags.fields.now × NoneAbove 255 self.entry.amounts.fields.now × NoneAbove 255 self.entry.flags.fields.now × NoneAbove 1 self.entry.flags.values.now) }
    {
        rises(self.amounts.fields)
            && rises(self.flags.fields)
            && up_to(self.amounts.fields, 255)
            && up_to(self.flags.fields, 255)
            && up_to(self.flags.values, 1)
    }
}
