// Which rows of words are images.
ghost use Rattle.std.specs.Prelude.{◌≡◌, ◌+◌, ◌*◌, ◌≤◌, length, IfOk};
ghost use Rattle.image.specs.Accept.{accepted};

use crate::instruction::{Accepted, Header};
use language::faults::{Cause, Fault};
use language::opcodes::Opcode;
use language::values::ValueType;

// The most codes that an image may have.
pub const MOST_CODES: u32 = 12_288;

// What is known of an image; a row of words that is none is refused.
pub fn accept(words: &[u32]) -> Result<Accepted, Fault>
    ensures value { result ≡ accepted words.now }
    ensures bound { IfOk result (λ a. (2 + 2 * a.header.count ≤ length words.now) × (a.others ≤ 255)) }
{
    let &[count, number, first, ..] = words else {
        return Err(Cause::Bring.into());
    };
    if count < 1 || count > MOST_CODES || words.len() != 2 + 2 * count as usize {
        return Err(Cause::Bring.into());
    }
    let result = ValueType::try_from(number).map_err(|_| Cause::Bring)?;
    let others = words[2 + count as usize];
    if first != u32::from(Opcode::Entry) || others > 255 {
        return Err(Cause::Bring.into());
    }
    Ok(Accepted {
        header: Header { count, result },
        others,
    })
}
