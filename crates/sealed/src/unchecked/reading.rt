//! Reading a line, piece by piece. Where that fails, the error is a place in the
//! line: a number, since there is only one kind of fault.

ghost use Rattle.std.specs.Prelude.{◌≡◌, ℕ, ◌^◌, ◌<◌, ◌≤◌, length};
ghost use Rattle.shape.specs.Column.{OneColumn};
ghost use Rattle.shape.specs.Token.{Runs};
ghost use Rattle.sealed.specs.Frame.{Counts, ReadsDigits, ReadsLiteral, ReadsNumber, ReadsValue};
ghost use Rattle.sealed.specs.Hex.{HexDigit};
ghost use Rattle.sealed.specs.Line.{OneReading, SealedLine};

use super::Unchecked;
use crate::hex::is_hex;
use crate::label::Label;
use crate::{LAST_KIND, LAST_SLOT, LONGEST_SIV, LONGEST_TEXT, is_siv_len};
use refusal::Refusal;
use shape::{Leading, literal};

// How many digits at the front of `s` write a value up to `high`, and that value.
fn counted(s: &[u8], high: u32) -> Leading<u32>
    ensures { Counts high s.now result.len result.value }
{
    let mut value: u32 = 0;
    for (len, b) in s.iter().enumerate() {
        if !b.is_ascii_digit() {
            return Leading { value, len };
        }
        let next = u64::from(value) * 10 + u64::from(*b - b'0');
        if next > u64::from(high) {
            return Leading { value, len };
        }
        value = next as u32;
    }
    Leading {
        value,
        len: s.len(),
    }
}

// Reads a value from `low` to `high` at the front of `s`. `Err` has how many
// bytes there can begin one. The first byte is read by index: after a slice
// pattern no name that a proof can cite gives it.
pub(crate) fn read_value(s: &[u8], low: u32, high: u32) -> Result<Leading<u32>, usize>
    requires { (low ≤ 1) × (1 ≤ high) }
    ensures { ReadsValue low high s.now result }
{
    if s.len() > 0 && s[0] == b'0' {
        if low > 0 {
            return Err(0);
        }
        return Ok(Leading { value: 0, len: 1 });
    }
    let found = counted(s, high);
    if found.len == 0 {
        return Err(0);
    }
    Ok(found)
}

// How many bytes at the front of `s` are hexadecimal digits, counted up to `most`.
fn hex_run(s: &[u8], most: usize) -> usize
    ensures { Runs HexDigit most s.now result }
{
    hex_front(&s[..most.min(s.len())])
}

// How many bytes at the front of `s` are hexadecimal digits. A function of its own, with no limit
// but the end of `s`: else each digit takes up to twice the time.
#[inline(never)]
fn hex_front(s: &[u8]) -> usize
    ensures { Runs HexDigit (length s.now) s.now result }
{
    s.iter().take_while(|b| is_hex(**b)).count()
}

// A line, and the place up to which it was read, which a fault answers.
#[derive(Drop)]
struct Reader<'a> {
    line: &'a [u8],
    at: usize,
    ghost within: { at ≤ length line.now },
}

// Each reads from the place on, up to which it then stands; `Err` has the place
// of the fault.
impl<'a> Reader<'a> {
    ghost use Rattle.sealed.specs.Sheet.{ReadsFrame, ReadsLabel};

    // Reads `text`.
    fn literal(&mut self, text: &[u8]) -> Result<(), usize>
        ensures same { self.new.line ≡ self.old.line }
        ensures reads { ReadsLiteral text.now self.old.line.now self.old.at self.new.at result }
    {
        let at = self.at;
        let n = literal(&self.line[at..], text).map_err(|n| at + n)?;
        self.at = at + n;
        Ok(())
    }

    // Reads `text` and a value after it.
    fn number(&mut self, text: &[u8], low: u32, high: u32) -> Result<u32, usize>
        requires { (low ≤ 1) × (1 ≤ high) }
        ensures same { self.new.line ≡ self.old.line }
        ensures reads { ReadsNumber text.now low high self.old.line.now self.old.at self.new.at result }
    {
        self.literal(text)?;
        let at = self.at;
        let found = read_value(&self.line[at..], low, high).map_err(|n| at + n)?;
        self.at = at + found.len;
        Ok(found.value)
    }

    // Reads `text` and the digits of at most `most` bytes after it.
    fn digits(&mut self, text: &[u8], most: usize) -> Result<&'a [u8], usize>
        requires { most < 2 ^ 62 }
        ensures same { self.new.line ≡ self.old.line }
        ensures reads { ReadsDigits text.now most self.old.line.now self.old.at self.new.at result }
    {
        self.literal(text)?;
        let line = self.line;
        let rest = &line[self.at..];
        let n = hex_run(rest, 2 * most);
        let end = self.at + n;
        if n % 2 == 1 {
            return Err(end);
        }
        self.at = end;
        Ok(&rest[..n])
    }

    // Reads a sealed line up to the digits of its serial.
    fn label(&mut self) -> Result<Label, usize>
        requires { self.old.at ≡ 0 }
        ensures same { self.new.line ≡ self.old.line }
        ensures reads { ReadsLabel self.old.line.now self.new.at result }
    {
        let slot = self.number(b"(sealed (slot ", 0, LAST_SLOT)?;
        let kind = self.number(b") (kind ", 1, LAST_KIND)?;
        let serial = self.number(b") (serial ", 1, u32::MAX)?;
        Ok(Label {
            slot: slot as u8,
            kind: kind as u8,
            serial,
        })
    }

    // Reads a sealed line up to its line end.
    fn frame(&mut self) -> Result<Unchecked<'a>, usize>
        requires { self.old.at ≡ 0 }
        ensures same { self.new.line ≡ self.old.line }
        ensures reads { ReadsFrame self.old.line.now self.new.at result }
    {
        let label = self.label()?;
        let header_len = self.at + 2;
        let siv = self.digits(b") (siv ", LONGEST_SIV)?;
        if !is_siv_len(siv.len() / 2) {
            return Err(self.at);
        }
        let text = self.digits(b") (text ", LONGEST_TEXT)?;
        self.literal(b"))")?;
        let line = self.line;
        Ok(Unchecked {
            header: &line[..header_len],
            label,
            siv,
            text,
        })
    }
}

impl<'a> Unchecked<'a> {
    ghost use Rattle.sealed.specs.Sheet.{ReadsSealed};

    // Reads any bytes. `Ok` is a sealed line, with exactly its parts; the
    // refusal of any other has the column of the fault, from 1: one more than
    // the length of the longest front part that some sealed line begins with.
    pub fn read(line: &'a [u8]) -> Result<Unchecked<'a>, Refusal>
        ensures reads { ReadsSealed line.now result }
        ensures unique { (OneReading) × (OneColumn SealedLine) }
    {
        let mut reader = Reader { line, at: 0 };
        let sheet = reader
            .frame()
            .map_err(|n| Refusal::NoSealedLine { column: n + 1 })?;
        let n = reader.at;
        if n == line.len() || line[n] != b'\n' {
            return Err(Refusal::NoSealedLine { column: n + 1 });
        }
        if n + 1 < line.len() {
            return Err(Refusal::NoSealedLine { column: n + 2 });
        }
        Ok(sheet)
    }
}
