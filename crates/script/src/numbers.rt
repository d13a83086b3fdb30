// Words that write numbers.
ghost use Rattle.std.specs.Prelude.{◌≡◌};
ghost use Rattle.script.specs.Numbers.{flag_of, one_more, signed_of, word_of};

use crate::problem::Problem;

// A number with one digit more.
fn one_more(number: u32, byte: u8) -> Result<u32, Problem>
    ensures { result ≡ one_more number byte }
{
    let digit = (byte as char).to_digit(10).ok_or(Problem::NotNumber)?;
    let tenfold = number.checked_mul(10).ok_or(Problem::TooLarge)?;
    tenfold.checked_add(digit).ok_or(Problem::TooLarge)
}

// A word of 32 bits, in decimal digits.
#[tactic(auto, using(crate::proofs::Digits::goes, crate::proofs::Digits::breaks, crate::proofs::Digits::ended), unfolding(crate::specs::Numbers::word_of))]
pub fn word(text: &[u8]) -> Result<u32, Problem>
    ensures { result ≡ word_of text.now }
{
    if text.is_empty() {
        return Err(Problem::NotNumber);
    }
    let mut number = 0;
    for byte in text {
        number = one_more(number, *byte)?;
    }
    Ok(number)
}

// A number of 32 bits, with a minus before its digits where it is below 0.
pub fn signed(text: &[u8]) -> Result<i32, Problem>
    ensures { result ≡ signed_of text.now }
{
    let size = match text {
        [b'-', digits @ ..] => -i64::from(word(digits)?),
        _ => i64::from(word(text)?),
    };
    i32::try_from(size).map_err(|_| Problem::TooLarge)
}

// A truth value: 0 or 1.
pub fn flag(text: &[u8]) -> Result<bool, Problem>
    ensures { result ≡ flag_of text.now }
{
    match word(text)? {
        0 => Ok(false),
        1 => Ok(true),
        _ => Err(Problem::NotFlag),
    }
}
