//! Texts that are a number or bytes in hexadecimal as a whole.

ghost use Rattle.std.specs.Prelude.{◌≡◌, ℕ, ◌≤◌, Decides};
ghost use Rattle.sealed.specs.Hex.{HexDigit};
ghost use Rattle.sealed.specs.Whole.{NumberRead, HexRead};
ghost use Rattle.std.specs.List.{AllByRecursion};

use crate::hex::{is_hex, put_bytes};
use crate::unchecked::reading::read_value;

// Whether every byte is a hexadecimal digit, capitals not counted.
fn all_hex(digits: &[u8]) -> bool
    ensures { Decides result (AllByRecursion HexDigit digits.now) }
{
    digits.iter().all(|b| is_hex(*b))
}

// The number of four bytes that a text writes, without leading zeros; nothing
// exactly where it writes none.
pub fn read_number(text: &[u8]) -> Option<u32>
    ensures { NumberRead text.now result }
{
    let found = read_value(text, 0, u32::MAX).ok()?;
    (found.len == text.len()).then_some(found.value)
}

// Puts the bytes that a text writes in hexadecimal to the front of `out`, and
// answers how many they are; nothing exactly where it writes no bytes, or more
// than `out` has room for.
pub fn read_hex(text: &[u8], out: &mut [u8]) -> Option<usize>
    ensures { HexRead text.now out.old out.new result }
{
    let len = text.len();
    if len % 2 != 0 || out.len() < len / 2 {
        return None;
    }
    if !all_hex(text) {
        return None;
    }
    Some(put_bytes(text, out))
}
