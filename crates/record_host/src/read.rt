// Reading a lawful record.
ghost use Rattle.std.specs.Prelude.{◌≡◌};
ghost use Rattle.record_host.specs.Lawful.{Lawful};
ghost use Rattle.record_host.specs.Means.{amount_of, flag_of};

use crate::parts::Parts;

// The amount that a record has for a field.
// Stays beside the one for flags: each is one line over its own group, and makes another type of a word.
pub(crate) fn amount_of(words: &[u32], field: u8) -> Option<i32>
    requires { Lawful words.now }
    ensures { result ≡ amount_of words.now field }
{
    Parts::of(words).amounts.value(field).map(u32::cast_signed)
}

// The flag that a record has for a field.
pub(crate) fn flag_of(words: &[u32], field: u8) -> Option<bool>
    requires { Lawful words.now }
    ensures { result ≡ flag_of words.now field }
{
    Parts::of(words).flags.value(field).map(|word| word == 1)
}
