//! A sheet that was read and not opened.

ghost use Rattle.std.specs.Prelude.{◌≡◌, ◌≤◌, true, length};
ghost use Rattle.sealed.specs.Hex.{bytes_of};
ghost use Rattle.sealed.specs.Limits.{siv_length, text_length, longest_siv};
ghost use Rattle.sealed.specs.Line.{LawfulHeader, header_of};

mod opening;
pub(crate) mod reading;

use crate::label::Label;

// A sealed line that was read and not opened. Nobody may take anything from it
// but its label; it is used up by opening. It borrows the line, and is moved,
// never copied. Only reading makes one, so what it holds are the parts of a
// sealed line.
#[derive(Drop)]
pub struct Unchecked<'a> {
    header: &'a [u8],
    label: Label,
    // the digits of the SIV and of the text
    siv: &'a [u8],
    text: &'a [u8],
    ghost numbers: { LawfulHeader label.slot label.kind label.serial },
    ghost siv_long: { siv_length (length (bytes_of siv.now)) ≡ true },
    ghost text_long: { text_length (length (bytes_of text.now)) ≡ true },
    ghost head: { header.now ≡ header_of label.slot label.kind label.serial },
}

// A SIV: the first `len` of its bytes, and zeros after them. It has a length
// beside it, since its memory is fixed: a box has no heap.
#[derive(Clone, Copy)]
pub struct Siv {
    pub bytes: [u8; 32],
    pub len: usize,
}

// The masked text of a sheet, as digits. Its one use is to be decoded into a
// work buffer, which uses it up. It is moved, never copied.
#[derive(Drop)]
pub struct Ciphertext<'a> {
    digits: &'a [u8],
}

// What opening needs of a sheet. All of it stands in the line for anybody to
// read: the header in clear, the SIV, and the text under its mask. No item can
// be taken from it, since the bytes of the items appear only once the text is
// unmasked under the key.
#[derive(Drop)]
pub struct SealedParts<'a> {
    pub header: &'a [u8],
    pub siv: Siv,
    pub text: Ciphertext<'a>,
}
