//! Numbers by their values: read from their digits, and written as them.

ghost use Rattle.std.specs.Prelude.{◌≡◌, ℕ, ◌+◌, ◌-◌, ◌<◌, ◌≤◌, ◌++◌, length, drop};
ghost use Rattle.shape.specs.Decimal.{LeadsNumber, MeasuresNumber, NumbersAreDigits, ReadsNumber, WritesFigures, WritesNumber, figures};
ghost use Rattle.shape.specs.Form.{Unsigned};
ghost use Rattle.shape.specs.Limits.{bound};

use crate::scan::number;

// the largest value that a line can hold; below 0 it goes as far
pub const LARGEST: u32 = 999_999;

// A value read at the front of a text, and how many bytes it takes.
#[derive(Clone, Copy, PartialEq, Eq, Debug)]
pub struct Leading<T> {
    pub value: T,
    pub len: usize,
}

// Reads a text that is one number and nothing else.
pub fn read_number(text: &[u8]) -> Option<i32>
    ensures value { ReadsNumber text.now result }
    ensures shaped { NumbersAreDigits }
{
    leading_number(text)
        .filter(|found| found.len == text.len())
        .map(|found| found.value)
}

// Reads the longest number that `text` begins with.
pub fn leading_number(text: &[u8]) -> Option<Leading<i32>>
    ensures { LeadsNumber text.now result }
{
    let len = number(text).ok()?;
    let value = match &text[..len] {
        [b'-', digits @ ..] => -figures_value(digits).cast_signed(),
        digits => figures_value(digits).cast_signed(),
    };
    Some(Leading { value, len })
}

// The value of digits that make a number without a sign.
fn figures_value(digits: &[u8]) -> u32
    requires { Unsigned digits.now }
    ensures { (result < bound) × (digits.now ≡ figures result) }
{
    let mut value: u32 = 0;
    for digit in digits {
        value = value * 10 + u32::from(*digit - b'0');
    }
    value
}

// How many bytes `value` is written with; `None` if lines cannot hold it.
pub fn number_len(value: i32) -> Option<usize>
    ensures { MeasuresNumber value result }
{
    let size = value.unsigned_abs();
    let count = figure_count(size);
    let len = if value < 0 { 1 + count } else { count };
    (size <= LARGEST).then_some(len)
}

// Writes `value` to the front of `out` and answers how many bytes that took;
// `None`, and nothing written, if lines cannot hold it or `out` is too short.
pub fn write_number(value: i32, out: &mut [u8]) -> Option<usize>
    ensures { WritesNumber value out.old out.new result }
{
    let len = number_len(value).filter(|len| *len <= out.len())?;
    let size = value.unsigned_abs();
    if value < 0 {
        out[0] = b'-';
        write_figures(size, &mut out[1..]);
    } else {
        write_figures(size, out);
    }
    Some(len)
}

// How many digits `n` has.
pub fn figure_count(n: u32) -> usize
    ensures { result ≡ length (figures n) }
{
    n.checked_ilog10().map_or(1, |log| log as usize + 1)
}

// Writes the digits of `n` to the front of `out` and answers how many they are;
// `None`, and nothing written, if `out` is too short.
pub fn write_figures(n: u32, out: &mut [u8]) -> Option<usize>
    ensures { WritesFigures n out.old out.new result }
{
    let count = figure_count(n);
    if out.len() < count {
        return None;
    }
    let mut rest = n;
    // by index: once `iter_mut().rev()` is over, a proof knows the length alone
    for place in (0..count).rev() {
        out[place] = b'0' + (rest % 10) as u8;
        rest /= 10;
    }
    Some(count)
}
