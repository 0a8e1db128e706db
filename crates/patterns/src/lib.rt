//! Lines by patterns. A pattern is a line in which each `#` stands for a
//! number, with a range for each. A kind's line is a pattern and its numbers:
//! it is written, measured and read here, once for all kinds.

#![tactic(auto)]

ghost use Rattle.std.specs.Prelude.{◌≡◌, ℕ, ◌<◌, ◌≤◌, true, ◌++◌, length, drop, [], ◌∷◌, IfSome};
ghost use Rattle.shape.specs.Decimal.{InRange};
ghost use Rattle.kinds.specs.Kind.{Writes};
ghost use Rattle.patterns.specs.Pattern.{AllInRange, FitsRoom, ReadsPattern, digits_of, fitting, in_ranges, spelt, within};
ghost use Rattle.patterns.specs.Steps.{NextValue};

use refusal::Refusal;
use shape::{LARGEST, Leading, leading_number, number_len, write_number};

// The values that a number of a line may have.
#[derive(Clone, Copy, PartialEq, Eq, Debug)]
pub struct Range {
    pub low: i32,
    pub high: i32,
}

impl Range {
    // Whether a value is in the range, and lines can hold it.
    pub fn holds(&self, value: i32) -> bool
        ensures { result ≡ within self.now value }
    {
        self.low <= value && value <= self.high && value.unsigned_abs() <= LARGEST
    }
}

// A line with a `#` for each number, and the range of each number.
#[derive(Clone, Copy)]
pub struct Pattern<'a> {
    pub text: &'a [u8],
    pub ranges: &'a [Range],
}

impl<'a> Pattern<'a> {
    // Writes the line of these values to the front of `out`, and answers its
    // length. Values out of their ranges are refused, then a buffer that is
    // shorter than the line.
    pub fn write(&self, values: &[i32], out: &mut [u8]) -> Result<usize, Refusal>
        ensures { Writes (in_ranges self.now.ranges.now values.now) (spelt self.now.text.now values.now) out.old out.new result }
    {
        if !all_within(self.ranges, values) {
            return Err(Refusal::UnlawfulItem { index: 0 });
        }
        let len = measured(self.text, values, out.len()).ok_or(Refusal::ShortOutput)?;
        put_line(self.text, values, out);
        Ok(len)
    }

    // The `N` values that make a line, if there are as many ranges; nothing
    // exactly where no values in the ranges do, if the text fits them. Inlined, so
    // that a kind's patterns are constants there: else a short line takes half as
    // long again.
    #[inline(always)]
    pub fn read<const N: usize>(&self, line: &[u8]) -> Option<[i32; N]>
        ensures { length self.now.ranges.now ≡ N → ReadsPattern self.now.text.now self.now.ranges.now line.now result }
    {
        if self.ranges.len() != N {
            return None;
        }
        let mut values = [0; N];
        let mut places = self.ranges.iter().enumerate();
        let mut rest = line;
        for b in self.text {
            if *b == b'#' {
                let (place, range) = places.next()?;
                let found = next_value(range, rest)?;
                values[place] = found.value;
                rest = &rest[found.len..];
            } else {
                let (first, after) = rest.split_first()?;
                if first != b {
                    return None;
                }
                rest = after;
            }
        }
        (rest.is_empty() && places.next().is_none()).then_some(values)
    }
}

// The number at the front of `line`, if it is in the range. A call of its own: in
// `read`, which is inlined, it would crowd out what is tried first.
#[inline(never)]
fn next_value(range: &Range, line: &[u8]) -> Option<Leading<i32>>
    ensures { NextValue (range.now ∷ []) line.now result }
{
    leading_number(line).filter(|found| range.holds(found.value))
}

// Whether there are as many values as ranges, each in its own.
fn all_within(ranges: &[Range], values: &[i32]) -> bool
    ensures { result ≡ in_ranges ranges.now values.now }
{
    ranges.len() == values.len()
        && ranges
            .iter()
            .zip(values)
            .all(|(range, value)| range.holds(*value))
}

// The length of the line of a pattern's text and values, if it fits the room.
fn measured(text: &[u8], values: &[i32], room: usize) -> Option<usize>
    requires { AllInRange values.now }
    ensures { FitsRoom (spelt text.now values.now) room result }
{
    let mut len = 0;
    let mut values = values.iter();
    for b in text {
        let size = if *b == b'#' {
            digits_len(values.next().copied())
        } else {
            1
        };
        if size > room - len {
            return None;
        }
        len += size;
    }
    Some(len)
}

// How many bytes a value is written with; 0 where there is none.
fn digits_len(value: Option<i32>) -> usize
    requires { IfSome value InRange }
    ensures { result ≡ length (digits_of value) }
{
    value.and_then(|value| number_len(value)).unwrap_or(0)
}

// Writes the line of a pattern's text and values, which fits.
fn put_line(text: &[u8], values: &[i32], out: &mut [u8])
    requires { (AllInRange values.now) × (length (spelt text.now values.now) ≤ length out.old) }
    ensures { out.new ≡ spelt text.now values.now ++ drop (length (spelt text.now values.now)) out.old }
{
    // By a place: the rest of a buffer could only be kept by taking it out of its variable.
    let mut at = 0;
    let mut values = values.iter();
    for b in text {
        if *b == b'#' {
            at += put_digits(values.next().copied(), &mut out[at..]);
        } else {
            out[at] = *b;
            at += 1;
        }
    }
}

// Writes a value and answers its length; nothing where there is none.
fn put_digits(value: Option<i32>, out: &mut [u8]) -> usize
    requires { IfSome value InRange × (length (digits_of value) ≤ length out.old) }
    ensures len { result ≡ length (digits_of value) }
    ensures after { out.new ≡ digits_of value ++ drop result out.old }
{
    let Some(value) = value else {
        return 0;
    };
    write_number(value, out).unwrap_or(0)
}
