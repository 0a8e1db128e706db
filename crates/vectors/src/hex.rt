//! Bytes in hexadecimal, with small letters, and `-` for no bytes.

use anyhow::anyhow;
use sealed::read_hex;
use std::alloc::{AllocError, Global};

// Whether a byte is a hexadecimal digit.
fn is_digit(b: u8) -> bool {
    matches!(b, b'0'..=b'9' | b'a'..=b'f')
}

// The bytes that a text spells.
pub fn decode(heap: Global, text: &str) -> anyhow::Result<Vec<u8>> {
    let digits = if text == "-" { "" } else { text };
    let mut bytes = vec![in heap; 0u8; digits.len() / 2]?;
    match read_hex(digits.as_bytes(), &mut bytes) {
        Some(_) => Ok(bytes),
        None if digits.bytes().all(is_digit) => {
            Err(anyhow!("an odd number of hexadecimal digits"))
        }
        None => Err(anyhow!("no hexadecimal digit")),
    }
}

// The bytes that a text spells, where there are as many as the array has.
pub fn decode_array<const N: usize>(heap: Global, text: &str) -> anyhow::Result<[u8; N]> {
    <[u8; N]>::try_from(decode(heap, text)?.as_slice()).map_err(|_| anyhow!(
        "a field of the wrong length"
    ))
}

// The text that spells bytes.
pub fn encode(heap: Global, bytes: &[u8]) -> Result<String, AllocError> {
    let mut text = String::new(heap);
    for b in bytes {
        text.push_str(format!(in heap; "{b:02x}")?.as_str())?;
    }
    Ok(text)
}
