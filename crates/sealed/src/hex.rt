//! Bytes in hexadecimal.

ghost use Rattle.std.specs.Prelude.{◌≡◌, ℕ, ◌+◌, ◌*◌, ◌/◌, ◌<◌, ◌≤◌, ◌++◌, length, drop, None, Decides};
ghost use Rattle.sealed.specs.Hex.{HexDigit, bytes_of, digit_value, hex_digit, hex_of};
ghost use Rattle.sealed.specs.Writes.{Writes, over, room_refusal};

use refusal::Refusal;

pub(crate) fn is_hex(b: u8) -> bool
    ensures { Decides result (HexDigit b) }
{
    // Not `matches!`, which is a branch more for each digit: a line would be read at half the speed.
    (b'0'..=b'9').contains(&b) || (b'a'..=b'f').contains(&b)
}

// The digit of a value below 16; `char::from_digit` gives an option of a `char`.
#[tactic(auto, using(std::proofs::lemmas::Bool::Decides::nat_tests), unfolding(crate::specs::Hex::hex_digit))]
fn digit(value: u8) -> u8
    requires { value < 16 }
    ensures { result ≡ hex_digit value }
{
    if value < 10 {
        b'0' + value
    } else {
        b'a' + (value - 10)
    }
}

// The value of a digit, 0 for any other byte; `to_digit` takes capitals too.
#[tactic(auto, using(std::proofs::lemmas::Bool::Decides::nat_tests), unfolding(crate::specs::Hex::digit_value))]
fn nibble(c: u8) -> u8
    ensures { result ≡ digit_value c }
{
    match c {
        b'0'..=b'9' => c - b'0',
        b'a'..=b'f' => c - b'a' + 10,
        _ => 0,
    }
}

// Writes the digits of `bytes` to the front of `out`.
pub(crate) fn put_hex(bytes: &[u8], out: &mut [u8])
    requires { 2 * length bytes.now ≤ length out.old }
    ensures { out.new ≡ hex_of bytes.now ++ drop (2 * length bytes.now) out.old }
{
    // by index: of what `chunks_exact_mut` lends out a proof knows no byte afterwards
    for (i, b) in bytes.iter().enumerate() {
        out[2 * i] = digit(*b / 16);
        out[2 * i + 1] = digit(*b % 16);
    }
}

// Writes the bytes that `digits` write to the front of `out`, and answers how many they are.
pub(crate) fn put_bytes(digits: &[u8], out: &mut [u8]) -> usize
    requires { length (bytes_of digits.now) ≤ length out.old }
    ensures len { result ≡ length (bytes_of digits.now) }
    ensures after { out.new ≡ bytes_of digits.now ++ drop (length (bytes_of digits.now)) out.old }
{
    // by index: of what a zipped `iter_mut` lends out a proof knows no byte afterwards
    for (i, pair) in digits.chunks_exact(2).enumerate() {
        out[i] = nibble(pair[0]) * 16 + nibble(pair[1]);
    }
    digits.len() / 2
}

// Writes `bytes` to the front of `out` in hexadecimal and answers how many
// digits that takes; refused if `out` is shorter.
pub fn write_hex(bytes: &[u8], out: &mut [u8]) -> Result<usize, Refusal>
    ensures { Writes (room_refusal None (length (hex_of bytes.now)) (length out.old)) (hex_of bytes.now) out.old out.new result }
{
    if out.len() / 2 < bytes.len() {
        return Err(Refusal::ShortOutput);
    }
    put_hex(bytes, out);
    Ok(2 * bytes.len())
}
