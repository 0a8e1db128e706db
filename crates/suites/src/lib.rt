//! The suites: which stream and which strength a sealing is done with, by
//! number and by name, and bare sealing and opening by suite number.

#![tactic(auto)]

ghost use Rattle.std.specs.Prelude.{◌≡◌, Some};
ghost use Rattle.suites.specs.Suites.{table, suite, named};
ghost use Rattle.suites.specs.Bytes.{table_byte};
ghost use Rattle.suites.specs.Calls.{Found, SealsBy, OpensBy, code as code_of};
ghost use Rattle.std.proofs.Common.{rules};

use aes::Aes256;
use chacha::ChaCha;
use hash::Strength;
use hs1::{Cipher, Context};
use refusal::Refusal;
use std::fmt;
use std::str::FromStr;
use stream::Stream;

// A suite: a stream and a strength.
#[derive(Clone, Copy, PartialEq, Eq, Debug)]
pub enum Suite {
    // ChaCha with 8 rounds, strength lo
    Hs1SivLo,
    // ChaCha with 12 rounds, strength mid
    Hs1Siv,
    // ChaCha with 20 rounds, strength hi
    Hs1SivHi,
    // AES-256, strength mid
    LoftAes,
}

impl Suite {
    // The suite's name.
    pub fn name(self) -> &'static str
        ensures { result.now ≡ (table self).name }
    {
        match self {
            Suite::Hs1SivLo => "hs1-siv-lo",
            Suite::Hs1Siv => "hs1-siv",
            Suite::Hs1SivHi => "hs1-siv-hi",
            Suite::LoftAes => "loft-aes",
        }
    }

    // The suite's strength.
    pub fn strength(self) -> Strength
        ensures { result ≡ (table self).strength }
    {
        match self {
            Suite::Hs1SivLo => Strength::Lo,
            Suite::Hs1Siv | Suite::LoftAes => Strength::Mid,
            Suite::Hs1SivHi => Strength::Hi,
        }
    }

    // What the suite seals and opens with.
    pub fn cipher(self) -> Cipher<Suite>
        ensures stream { result.stream ≡ self }
        ensures strength { result.strength ≡ (table self).strength }
    {
        Cipher {
            stream: self,
            strength: self.strength(),
        }
    }
}

// The suite of a number, or a refusal.
impl TryFrom<u32> for Suite {
    type Error = Refusal;

    ghost try_from_gives = { λ number answer. Found (suite number) answer };

    fn try_from(number: u32) -> Result<Suite, Refusal> {
        match number {
            1 => Ok(Suite::Hs1SivLo),
            2 => Ok(Suite::Hs1Siv),
            3 => Ok(Suite::Hs1SivHi),
            4 => Ok(Suite::LoftAes),
            _ => Err(Refusal::UnknownSuite),
        }
    }
}

// The suite's number.
impl From<Suite> for u32 {
    ghost from_gives = { λ suite number. number ≡ (table suite).number };

    fn from(suite: Suite) -> u32 {
        match suite {
            Suite::Hs1SivLo => 1,
            Suite::Hs1Siv => 2,
            Suite::Hs1SivHi => 3,
            Suite::LoftAes => 4,
        }
    }
}

// The suite of a name, or a refusal.
impl FromStr for Suite {
    type Err = Refusal;

    ghost from_str_gives = { λ name answer. Found (named name) answer };

    fn from_str(name: &str) -> Result<Suite, Refusal> {
        match name {
            "hs1-siv-lo" => Ok(Suite::Hs1SivLo),
            "hs1-siv" => Ok(Suite::Hs1Siv),
            "hs1-siv-hi" => Ok(Suite::Hs1SivHi),
            "loft-aes" => Ok(Suite::LoftAes),
            _ => Err(Refusal::UnknownSuite),
        }
    }
}

// The suite's name.
impl fmt::Display for Suite {
    ghost output = { λ suite. Some (table suite).name };

    fn fmt<W: fmt::Write>(&self, f: &mut fmt::Formatter<W>) -> fmt::Result {
        f.write_str(self.name())
    }
}

// A suite stands for its stream.
impl Stream for Suite {
    ghost meaning = { λ suite. (table suite).stream };

    ghost counted = { Prim.search rules };

    ghost byted = { table_byte };

    fn rounds(&self) -> u8 {
        match self {
            Suite::Hs1SivLo => 8,
            Suite::Hs1Siv => 12,
            Suite::Hs1SivHi => 20,
            Suite::LoftAes => Aes256.rounds(),
        }
    }

    fn xor(
        &self,
        seed: &[u8; 32],
        nonce: &[u8; 12],
        place: u32,
        buf: &mut [u8],
    ) -> Result<(), Refusal> {
        match self {
            Suite::LoftAes => Aes256.xor(seed, nonce, place, buf),
            _ => ChaCha::new(self.rounds())?.xor(seed, nonce, place, buf),
        }
    }
}

// Seals a text by the suite of that number. An unknown number is refused
// before every other check.
pub fn seal_suite(
    number: u32,
    context: Context<'_>,
    text: &[u8],
    siv_out: &mut [u8],
    out: &mut [u8],
) -> Result<(), Refusal>
    ensures { SealsBy (suite number) context.entry.key.now context.entry.nonce.now context.entry.header.now text.now siv_out.old siv_out.new out.old out.new result }
{
    let suite = Suite::try_from(number)?;
    suite.cipher().seal(context, text, siv_out, out)
}

// Opens a ciphertext by the suite of that number. An unknown number is refused
// before every other check.
pub fn open_suite(
    number: u32,
    context: Context<'_>,
    iv: &[u8],
    cipher: &[u8],
    out: &mut [u8],
) -> Result<(), Refusal>
    ensures { OpensBy (suite number) context.entry.key.now context.entry.nonce.now context.entry.header.now iv.now cipher.now out.old out.new result }
{
    let named = Suite::try_from(number)?;
    named.cipher().open(context, iv, cipher, out)
}

// The number that an answer is given as to C and in printed answers: 0 for
// done, else the refusal's.
pub fn code(answer: Result<(), Refusal>) -> u8
    ensures { result ≡ code_of answer }
{
    match answer {
        Ok(()) => 0,
        Err(why) => why.number(),
    }
}
