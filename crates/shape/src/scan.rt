//! The pieces of a line: how far the bytes at the front go as one.

ghost use Rattle.std.specs.Prelude.{◌≤◌};
ghost use Rattle.shape.specs.Form.{Digit, Letter, Number};
ghost use Rattle.shape.specs.Limits.{most_letters};
ghost use Rattle.shape.specs.Outcome.{Is, Outcome};
ghost use Rattle.shape.specs.Token.{Runs, Shares, Token, allowed_digits};

use crate::{MOST_DIGITS, MOST_LETTERS};

// How long the number at the front of `s` is; `Err` for as much as could begin one.
// Inlined into both of its callers: by a call a line of short numbers takes twice the time.
#[inline(always)]
pub(crate) fn number(s: &[u8]) -> Result<usize, usize>
    ensures { Token Number s.now result }
{
    let [b'-', digits @ ..] = s else {
        let n = unsigned(s);
        return if n > 0 { Ok(n) } else { Err(0) };
    };
    if let [b'0', ..] = digits {
        return Err(1);
    }
    let n = run(digits, b'0', b'9', MOST_DIGITS);
    if n > 0 { Ok(1 + n) } else { Err(1) }
}

// How many digits at the front of `s` can be those of one number: after a
// leading zero no other is.
fn unsigned(s: &[u8]) -> usize
    ensures { Runs Digit (allowed_digits s.now) s.now result }
{
    let most = match s {
        [b'0', ..] => 1,
        _ => MOST_DIGITS,
    };
    run(s, b'0', b'9', most)
}

// How many letters at the front of `s` can be those of one word. The line is cut first, which is
// faster here: else each of the eight letters is a piece of code of its own.
pub(crate) fn letters(s: &[u8]) -> usize
    ensures { Runs Letter most_letters s.now result }
{
    run(&s[..MOST_LETTERS.min(s.len())], b'a', b'z', MOST_LETTERS)
}

// How many bytes at the front of `s` lie between `low` and `high`, counted up to `most`.
fn run(s: &[u8], low: u8, high: u8, most: usize) -> usize
    ensures { Runs (λ b. (low ≤ b) × (b ≤ high)) most s.now result }
{
    s.iter()
        .take(most)
        .take_while(|b| (low..=high).contains(*b))
        .count()
}

// Reads the text `text` at the front of `s`. `Ok` has its length, `Err` the
// length of the front part that the two share.
pub fn literal(s: &[u8], text: &[u8]) -> Result<usize, usize>
    ensures { Outcome (Is text.now) s.now result }
{
    let n = shared(s, text);
    if n == text.len() { Ok(n) } else { Err(n) }
}

// How many bytes at the front of `s` are those of `text`.
fn shared(s: &[u8], text: &[u8]) -> usize
    ensures { Shares text.now s.now result }
{
    s.iter().zip(text).take_while(|(a, b)| a == b).count()
}
