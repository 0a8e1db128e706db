//! What a sheet tells, and taking it apart for opening.

ghost use Rattle.std.specs.Prelude.{◌≡◌, ◌≤◌, length, take, replicate};
ghost use Rattle.sealed.specs.Opening.{ApartFrom, Compares, HoldsSiv, cipher_of};
ghost use Rattle.sealed.specs.Hex.{bytes_of};
ghost use Rattle.sealed.specs.Limits.{longest_siv};
ghost use Rattle.sealed.specs.Writes.{Decodes};

use super::{Ciphertext, SealedParts, Siv, Unchecked};
use crate::LONGEST_SIV;
use crate::hex::put_bytes;
use crate::label::Label;
use crate::wiped::Wiped;
use refusal::Refusal;

// The SIV that `digits` write.
fn siv_of(digits: &[u8]) -> Siv
    requires { length (bytes_of digits.now) ≤ longest_siv }
    ensures { HoldsSiv (bytes_of digits.now) result }
{
    let mut bytes = [0u8; LONGEST_SIV];
    let len = put_bytes(digits, &mut bytes);
    Siv { bytes, len }
}

impl<'a> Unchecked<'a> {
    // What the sheet tells before it is opened.
    pub fn label(&self) -> Label
        ensures { result ≡ self.now.label }
    {
        let Unchecked { label, .. } = self;
        *label
    }

    pub fn slot(&self) -> u8
        ensures { result ≡ self.now.label.slot }
    {
        self.label.slot
    }

    pub fn kind(&self) -> u8
        ensures { result ≡ self.now.label.kind }
    {
        self.label.kind
    }

    pub fn serial(&self) -> u32
        ensures { result ≡ self.now.label.serial }
    {
        self.label.serial
    }

    // Takes the sheet apart for the crate that opens it, and uses it up.
    pub fn into_parts(self) -> SealedParts<'a>
        ensures { ApartFrom self.entry result }
    {
        let Unchecked {
            header,
            label: _,
            siv,
            text,
        } = self;
        SealedParts {
            header,
            siv: siv_of(siv),
            text: Ciphertext { digits: text },
        }
    }
}

impl Siv {
    // Its bytes.
    pub fn as_bytes(&self) -> &[u8]
        ensures { result.now ≡ take self.now.len self.now.bytes }
    {
        &self.bytes[..self.len.min(LONGEST_SIV)]
    }
}

impl Ciphertext<'_> {
    // How many bytes it has.
    pub fn len(&self) -> usize
        ensures { result ≡ length (cipher_of self.now) }
    {
        self.digits.len() / 2
    }

    // Decodes the bytes to the front of `work` and answers how many they are;
    // refused if `work` is shorter.
    pub fn decode(self, work: &mut [u8]) -> Result<usize, Refusal>
        ensures { Decodes (cipher_of self.entry) work.old work.new result }
    {
        if work.len() < self.len() {
            return Err(Refusal::ShortWork);
        }
        let Ciphertext { digits } = self;
        Ok(put_bytes(digits, work))
    }

    // Whether the masked text is `bytes`, compared in `work`, which holds zeros
    // on every way out.
    pub fn equals(self, bytes: &[u8], work: &mut [u8]) -> Result<bool, Refusal>
        ensures wiped { work.new ≡ replicate (length work.old) 0 }
        ensures value { Compares (cipher_of self.entry) bytes.now (length work.old) result }
    {
        let guard = Wiped { work };
        let n = self.decode(&mut guard.work[..])?;
        Ok(&guard.work[..n] == bytes)
    }
}
