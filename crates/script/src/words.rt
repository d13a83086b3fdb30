// The words of a line.
ghost use Rattle.std.specs.Prelude.{◌≡◌, ◌≢◌, ℕ, ◌<◌, ◌≤◌, [], ◌∷◌, length, slice_index, IfSome, MatchOption, MatchResult};
ghost use Rattle.std.specs.Iterator.{YieldsFirstRef, item_count};
ghost use Rattle.script.specs.declared.problem.Problem.TheVariants.{MissingNumber};
ghost use Rattle.script.specs.Words.{blank, words};

use crate::problem::Problem;

// A space, a tab or a carriage return.
fn is_blank(byte: u8) -> bool
    ensures { result ≡ blank byte }
{
    matches!(byte, b' ' | b'\t' | b'\r')
}

// How many bytes at the front are blanks, or are none.
fn front(text: &[u8], blanks: bool) -> usize
    ensures within { result ≤ length text.now }
    ensures all { (k : ℕ) → k < result → blank (slice_index text.now k) ≡ blanks }
    ensures stops { result < length text.now → blank (slice_index text.now result) ≢ blanks }
{
    text.iter()
        .take_while(|byte| is_blank(**byte) == blanks)
        .count()
}

// The first word of a text, and the text after it.
pub fn first(text: &[u8]) -> Option<(&[u8], &[u8])>
    ensures cuts { MatchOption result (words text.now ≡ []) (λ p. words text.now ≡ p.0.now ∷ words p.1.now) }
    ensures shorter { IfSome result (λ p. length p.1.now < length text.now) }
{
    let (_, text) = text.split_at(front(text, true));
    if text.is_empty() {
        return None;
    }
    Some(text.split_at(front(text, false)))
}

// The words of a text that are still to be read.
#[derive(Clone, Copy, PartialEq, Eq, Debug)]
pub struct Words<'a> {
    pub text: &'a [u8],
}

impl<'a> Iterator for Words<'a> {
    type Item = &'a [u8];

    ghost next_gives = { YieldsFirstRef (λ s. words s.text.now) };

    ghost remaining = { item_count (λ s. words s.text.now) };

    fn next(&mut self) -> Option<&'a [u8]> {
        let (word, rest) = first(self.text)?;
        self.text = rest;
        Some(word)
    }
}

impl<'a> Words<'a> {
    // The next word, which must be there.
    pub fn required(&mut self) -> Result<&'a [u8], Problem>
        ensures { MatchResult result (λ w. words self.old.text.now ≡ w.now ∷ words self.new.text.now) (λ e. (words self.old.text.now ≡ []) × (e ≡ MissingNumber)) }
    {
        self.next().ok_or(Problem::MissingNumber)
    }
}
