//! Sealing a sheet: from items to the line that travels.
//!
//! The items of a kind are written as a text, the text is sealed under a key,
//! and slot, kind, serial, SIV and ciphertext make the sealed line.
//! `docs/SHEETS.md` has the checks in their order.

#![tactic(auto)]

mod sealing;

ghost use Rattle.std.specs.Prelude.{◌≡◌};
ghost use Rattle.sheet.specs.Sheet.{nonce_of};

pub use sealed::Label;
pub use sealing::{Recipient, Unsealed, seal, seal_and_read};

// The nonce of a sheet: its serial, lowest byte first, and zeros.
pub fn nonce(serial: u32) -> [u8; 12]
    ensures { result ≡ nonce_of serial }
{
    let mut nonce = [0; 12];
    nonce[..4].copy_from_slice(&serial.to_le_bytes());
    nonce
}
