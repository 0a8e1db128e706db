//! Writing the sealed line and its header.

ghost use Rattle.std.specs.Prelude.{◌≡◌, ℕ, ◌+◌, ◌*◌, ◌≤◌, length};
ghost use Rattle.shape.specs.Decimal.{figures};
ghost use Rattle.sealed.specs.Hex.{hex_of};
ghost use Rattle.sealed.specs.Limits.{longest_header, longest_line};
ghost use Rattle.sealed.specs.Law.{ReadsBack};
ghost use Rattle.sealed.specs.Line.{Longest, LongestHeader, header_of, parts_in, rest_of};
ghost use Rattle.sealed.specs.Output.{Puts};
ghost use Rattle.sealed.specs.Writes.{Writes, WritesLine, answer, header_refusal, length_refusal, room_refusal};

use crate::hex::put_hex;
use crate::label::Label;
use crate::unchecked::Unchecked;
use crate::{LAST_KIND, LAST_SLOT, LONGEST_HEADER, LONGEST_LINE, LONGEST_TEXT, is_siv_len};
use refusal::Refusal;
use shape::{figure_count, write_figures};

// An output, and the place up to which it is written, which is answered at the
// end. The rest of a buffer could only be kept by taking it out of its variable.
#[derive(Drop)]
struct Writer<'a> {
    out: &'a mut [u8],
    at: usize,
}

// Each writes from the place on, up to which the output then is written.
impl Writer<'_> {
    // Writes `text`.
    fn put(&mut self, text: &[u8])
        requires { self.old.at + length text.now ≤ length self.old.out.now }
        ensures { Puts self.old self.new text.now }
    {
        let end = self.at + text.len();
        let out = &mut *self.out;
        out[self.at..end].copy_from_slice(text);
        self.at = end;
    }

    // Writes the digits of `n`.
    fn figures(&mut self, n: u32)
        requires { self.old.at + length (figures n) ≤ length self.old.out.now }
        ensures { Puts self.old self.new (figures n) }
    {
        let out = &mut *self.out;
        write_figures(n, &mut out[self.at..]);
        self.at += figure_count(n);
    }

    // Writes `bytes` in hexadecimal.
    fn hex(&mut self, bytes: &[u8])
        requires { self.old.at + 2 * length bytes.now ≤ length self.old.out.now }
        ensures { Puts self.old self.new (hex_of bytes.now) }
    {
        let out = &mut *self.out;
        put_hex(bytes, &mut out[self.at..]);
        self.at += 2 * bytes.len();
    }

    // Writes the header.
    fn header(&mut self, label: Label)
        requires { self.old.at + length (header_of label.slot label.kind label.serial) ≤ length self.old.out.now }
        ensures { Puts self.old self.new (header_of label.slot label.kind label.serial) }
    {
        self.put(b"(sealed (slot ");
        self.figures(u32::from(label.slot));
        self.put(b") (kind ");
        self.figures(u32::from(label.kind));
        self.put(b") (serial ");
        self.figures(label.serial);
        self.put(b") ");
    }

    // Writes what follows the header.
    fn rest(&mut self, siv: &[u8], text: &[u8])
        requires { self.old.at + length (rest_of siv.now text.now) ≤ length self.old.out.now }
        ensures { Puts self.old self.new (rest_of siv.now text.now) }
    {
        self.put(b"(siv ");
        self.hex(siv);
        self.put(b") (text ");
        self.hex(text);
        self.put(b"))\n");
    }
}

impl Label {
    // What is wrong with the numbers: a slot above 7, then a kind that is not
    // from 1 to 9, then the serial 0, which is above no last serial.
    fn check(self) -> Result<(), Refusal>
        ensures { result ≡ answer (header_refusal self.slot self.kind self.serial) }
    {
        if u32::from(self.slot) > LAST_SLOT {
            return Err(Refusal::NoSlot);
        }
        if self.kind < 1 || u32::from(self.kind) > LAST_KIND {
            return Err(Refusal::OtherKind);
        }
        if self.serial < 1 {
            return Err(Refusal::StaleSerial);
        }
        Ok(())
    }

    // What is wrong with the parts of a line: the numbers, then a SIV that has
    // not 8, 16 or 32 bytes, then a text of more than 16,384 bytes.
    fn check_parts(self, siv: usize, text: usize) -> Result<(), Refusal>
        ensures { result ≡ answer (length_refusal (header_refusal self.slot self.kind self.serial) siv text) }
    {
        self.check()?;
        if !is_siv_len(siv) {
            return Err(Refusal::SivLength);
        }
        if text > LONGEST_TEXT {
            return Err(Refusal::LargeSheet);
        }
        Ok(())
    }

    // Writes the header to the front of `out` and answers its length. Refused
    // are, in this order, a slot above 7 (6), a kind that is not from 1 to 9 (12),
    // the serial 0 (22), an output that is too short (4); then `out` stays as it was.
    pub fn write_header(self, out: &mut [u8]) -> Result<usize, Refusal>
        ensures { Writes (room_refusal (header_refusal self.slot self.kind self.serial) (length (header_of self.slot self.kind self.serial)) (length out.old)) (header_of self.slot self.kind self.serial) out.old out.new result }
    {
        self.check()?;
        if out.len() < 36 + figure_count(self.serial) {
            return Err(Refusal::ShortOutput);
        }
        let mut writer = Writer { out, at: 0 };
        writer.header(self);
        Ok(writer.at)
    }

    // Writes the sealed line with these parts to the front of `out` and answers
    // its length. SIV and text are bytes and may stand in a work buffer. Refused
    // are, in this order, a slot above 7 (6), a kind that is not from 1 to 9 (12),
    // the serial 0 (22), a SIV that has not 8, 16 or 32 bytes (16), a text of more
    // than 16,384 bytes (10), an output that is too short (4); then `out` stays as
    // it was.
    pub fn write_line(self, siv: &[u8], text: &[u8], out: &mut [u8]) -> Result<usize, Refusal>
        ensures { WritesLine (parts_in self.slot self.kind self.serial siv.now text.now) out.old out.new result }
    {
        self.check_parts(siv.len(), text.len())?;
        let len = 52 + figure_count(self.serial) + 2 * siv.len() + 2 * text.len();
        if out.len() < len {
            return Err(Refusal::ShortOutput);
        }
        let mut writer = Writer { out, at: 0 };
        writer.header(self);
        writer.rest(siv, text);
        Ok(writer.at)
    }

    // Writes the line with these parts and reads it back: what reading finds is
    // exactly what was written, and only the writing can refuse.
    pub fn write_and_read<'a>(
        self,
        siv: &[u8],
        text: &[u8],
        out: &'a mut [u8],
    ) -> Result<Unchecked<'a>, Refusal>
        ensures { ReadsBack (parts_in self.slot self.kind self.serial siv.now text.now) (length out.old) result }
    {
        let n = self.write_line(siv, text, out)?;
        Unchecked::read(&out[0..n])
    }
}

// The length of the longest sealed line: none is longer, and one is as long.
pub fn longest_line() -> usize
    ensures value { result ≡ longest_line }
    ensures longest { Longest }
{
    LONGEST_LINE
}

// The length of the longest header: a buffer of so many bytes has room for any.
pub fn longest_header() -> usize
    ensures value { result ≡ longest_header }
    ensures longest { LongestHeader }
{
    LONGEST_HEADER
}
