//! The sealed line: what it is, reading it, and writing it.
//!
//! `(sealed (slot 3) (kind 1) (serial 88) (siv H) (text H))` and a line end;
//! H is bytes in hexadecimal. `docs/SHEETS.md` draws its parts out. Nothing
//! here needs a key: a line that is read becomes an unchecked sheet, and only
//! opening, which belongs to other crates, gives items.

#![tactic(auto)]

ghost use Rattle.std.specs.Prelude.{◌≡◌};
ghost use Rattle.sealed.specs.Limits.{siv_length};

mod hex;
mod label;
mod unchecked;
mod whole;
mod wiped;
mod writing;

pub use hex::write_hex;
pub use label::Label;
pub use unchecked::{Ciphertext, SealedParts, Siv, Unchecked};
pub use whole::{read_hex, read_number};
pub use wiped::Wiped;
pub use writing::{longest_header, longest_line};

// slots are numbered from 0
pub const LAST_SLOT: u32 = 7;

pub const LAST_KIND: u32 = 9;
// bytes of the longest SIV
pub const LONGEST_SIV: usize = 32;
// bytes of the longest text
pub const LONGEST_TEXT: usize = 16_384;
// bytes of the longest header, and of the longest line with its line end
pub const LONGEST_HEADER: usize = 46;

pub const LONGEST_LINE: usize = 32_894;

// Whether a SIV may have so many bytes: one length for each strength of the cipher.
pub(crate) fn is_siv_len(len: usize) -> bool
    ensures { result ≡ siv_length len }
{
    matches!(len, 8 | 16 | 32)
}
