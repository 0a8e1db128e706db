//! HS1-SIV sealing and opening in three strengths, over any stream.
//!
//! Sealing turns a key, a nonce, a header and a text into a synthetic IV (SIV)
//! and a ciphertext as long as the text; opening gives the text back if the
//! SIV is the one that sealing gives. Nothing is kept between calls, no work
//! buffer and no heap is used.

#![tactic(auto)]

ghost use Rattle.std.specs.Prelude.{◌≡◌, ℕ, ◌+◌, ◌-◌, ◌*◌, ◌/◌, ◌%◌, ◌^◌, ◌<◌, ◌≤◌, List, ◌++◌, length, take, replicate, None, bit_xor, MatchResult};
ghost use Rattle.std.specs.Simd.Lanes.{zip2};
ghost use Rattle.stream.specs.Stream.{places, masked};
ghost use Rattle.hash.specs.Strength.{hashes, siv_length, subkey_bytes};
ghost use Rattle.hs1.specs.Hs1.{subkey_seed, subkey_nonce, subkeys};
ghost use Rattle.hs1.specs.Seal.{siv, under, ciphertext, same, opened};
ghost use Rattle.hs1.specs.Checks.{input_checks, seal_checks, siv_checks, open_checks, wrong_siv, answer, cleared};
ghost use Rattle.hs1.specs.Calls.{Seals, Opens};
ghost use Rattle.hs1.specs.Laws.{SealedOpens, OpenedWasSealed, OneText};
ghost use Rattle.hs1.specs.Derived.{Derived};

use hash::{HashKeys, Strength, hash, hash_message};
use refusal::Refusal;
use std::array;
use stream::{Stream, xor_bytes};

// Headers, texts and ciphertexts have at most so many bytes.
pub const LONGEST: usize = 65_536;
// Keys have at most so many bytes.
pub const LONGEST_KEY: usize = 32;
// Nonces have so many bytes.
pub const NONCE: usize = 12;
// The ciphertext is masked from this place of the stream on.
const TEXT_PLACE: u32 = 64;

// A stream and a strength: what sealing is done with.
#[derive(Drop)]
pub struct Cipher<S> {
    pub stream: S,
    pub strength: Strength,
}

// What a text is sealed under: the key, the nonce and the header.
#[derive(Clone, Copy)]
pub struct Context<'a> {
    pub key: &'a [u8],
    pub nonce: &'a [u8],
    pub header: &'a [u8],
}

// A key and a nonce made ready: KS and the subkeys of the hash, and the nonce.
#[derive(Clone, Copy)]
struct Ready {
    ks: [u8; 32],
    hash: HashKeys,
    nonce: [u8; NONCE],
}

// The key, repeated and cut to 32 bytes.
fn repeat_key(key: &[u8]) -> [u8; 32]
    requires { 0 < length key.now }
    ensures { result ≡ subkey_seed key.now }
{
    array::from_fn(|i| key[i % key.len()])
}

// The nonce that the subkeys are made with.
fn make_nonce(strength: Strength, rounds: u8, key_len: usize) -> [u8; NONCE]
    requires { key_len ≤ 32 }
    ensures { result ≡ subkey_nonce strength rounds key_len }
{
    // no `From` takes a `usize` to a `u64`
    let number = 64 * 0x1_0000_0000_0000
        + strength.hashes() as u64 * 0x100_0000_0000
        + u64::from(rounds) * 0x1_0000_0000
        + strength.siv_len() as u64 * 0x1_0000
        + key_len as u64;
    let mut nonce = [0; NONCE];
    nonce[..8].copy_from_slice(&number.to_le_bytes());
    nonce
}

// Whether two strings of one length are the same. Every byte is looked at.
fn same_bytes(a: &[u8], b: &[u8]) -> bool
    requires { length a.now ≡ length b.now }
    ensures { result ≡ same a.now b.now }
{
    a.iter()
        .zip(b.iter())
        .fold(0, |differ, (x, y)| differ | (*x ^ *y))
        == 0
}

impl Context<'_> {
    // Checks key, nonce, header and text or ciphertext by their lengths, and
    // gives the nonce.
    fn check(self, text: &[u8]) -> Result<[u8; NONCE], Refusal>
        ensures { let checks = input_checks (length self.entry.key.now) (length self.entry.nonce.now) (length self.entry.header.now) (length text.now) in MatchResult result (λ n. (checks ≡ None) × (n ≡ self.entry.nonce.now)) (λ why. checks ≡ Some why) }
    {
        if self.key.is_empty() || self.key.len() > LONGEST_KEY {
            return Err(Refusal::KeyLength);
        }
        let nonce = <[u8; NONCE]>::try_from(self.nonce).map_err(|_| Refusal::NonceLength)?;
        if self.header.len() > LONGEST || text.len() > LONGEST {
            return Err(Refusal::TooLong);
        }
        Ok(nonce)
    }
}

impl Ready {
    // The seed that the stream gets for an input, from the input's hash.
    fn seed(&self, mut digest: [u8; 32]) -> [u8; 32]
        ensures { result ≡ zip2 bit_xor digest self.now.ks }
    {
        xor_bytes(&mut digest, &self.ks);
        digest
    }
}

impl<S: Stream> Cipher<S> {
    // Masks a buffer that lies within the stream's places.
    fn mask(&self, seed: &[u8; 32], nonce: &[u8; NONCE], place: u32, buf: &mut [u8])
        requires { place + length buf.old ≤ places }
        ensures { buf.new ≡ masked ((S.Stream.meaning self.now.stream).byte seed.now nonce.now) place buf.old }
    {
        self.stream.xor(seed, nonce, place, buf).unwrap();
    }

    // The bytes that the subkeys of a key are read from, with zeros behind them.
    fn subkey_stream(&self, key: &[u8]) -> [u8; 368]
        requires { (0 < length key.now) × (length key.now ≤ 32) }
        ensures { result ≡ subkeys (S.Stream.meaning self.now.stream) self.now.strength key.now ++ replicate (368 - subkey_bytes self.now.strength) 0 }
    {
        let seed = repeat_key(key);
        let nonce = make_nonce(self.strength, self.stream.rounds(), key.len());
        let mut bytes = [0; 368];
        self.mask(&seed, &nonce, 0, &mut bytes[..self.strength.subkey_len()]);
        bytes
    }

    // Makes a key and a nonce ready.
    fn ready(&self, key: &[u8], nonce: [u8; NONCE]) -> Ready
        requires { (0 < length key.now) × (length key.now ≤ 32) }
        ensures derived { Derived (S.Stream.meaning self.now.stream) self.now.strength key.now result }
        ensures nonce { result.nonce ≡ nonce }
    {
        let bytes = self.subkey_stream(key);
        Ready {
            ks: *bytes.first_chunk().unwrap(),
            hash: HashKeys::read(self.strength, &bytes),
            nonce,
        }
    }

    // The SIV of header and text, at the front of the first 32 bytes of HS1.
    fn siv_bytes(&self, ready: &Ready, header: &[u8], text: &[u8]) -> [u8; 32]
        ensures { (key : List ℕ) → Derived (S.Stream.meaning self.now.stream) self.now.strength key ready.now → take (siv_length self.now.strength) result ≡ siv (S.Stream.meaning self.now.stream) self.now.strength key ready.now.nonce header.now text.now }
    {
        let seed = ready.seed(hash_message(self.strength, &ready.hash, header, text));
        let mut out = [0; 32];
        self.mask(&seed, &ready.nonce, 0, &mut out);
        out
    }

    // Masks or unmasks a text under a SIV.
    fn mask_text(&self, ready: &Ready, iv: &[u8], text: &mut [u8])
        requires { length text.old ≤ 65536 }
        ensures { (key : List ℕ) → Derived (S.Stream.meaning self.now.stream) self.now.strength key ready.now → text.new ≡ under (S.Stream.meaning self.now.stream) self.now.strength key ready.now.nonce iv.now text.old }
    {
        let seed = ready.seed(hash(self.strength, &ready.hash, iv));
        self.mask(&seed, &ready.nonce, TEXT_PLACE, text);
    }

    // Seals a text where it stands, and gives the SIV at the front of 32 bytes.
    fn seal_buffer(&self, ready: &Ready, header: &[u8], text: &mut [u8]) -> [u8; 32]
        requires { length text.old ≤ 65536 }
        ensures siv { (key : List ℕ) → Derived (S.Stream.meaning self.now.stream) self.now.strength key ready.now → take (siv_length self.now.strength) result ≡ siv (S.Stream.meaning self.now.stream) self.now.strength key ready.now.nonce header.now text.old }
        ensures text { (key : List ℕ) → Derived (S.Stream.meaning self.now.stream) self.now.strength key ready.now → text.new ≡ ciphertext (S.Stream.meaning self.now.stream) self.now.strength key ready.now.nonce header.now text.old }
    {
        let iv = self.siv_bytes(ready, header, text);
        self.mask_text(ready, &iv[..self.strength.siv_len()], text);
        iv
    }

    // Opens a ciphertext where it stands; zeros are left there if the SIV is
    // wrong.
    fn open_buffer(
        &self,
        ready: &Ready,
        header: &[u8],
        iv: &[u8],
        buf: &mut [u8],
    ) -> Result<(), Refusal>
        requires { (length iv.now ≡ siv_length self.now.strength) × (length buf.old ≤ 65536) }
        ensures answer { (key : List ℕ) → Derived (S.Stream.meaning self.now.stream) self.now.strength key ready.now → result ≡ answer (wrong_siv (opened (S.Stream.meaning self.now.stream) self.now.strength key ready.now.nonce header.now iv.now buf.old)) }
        ensures after { (key : List ℕ) → Derived (S.Stream.meaning self.now.stream) self.now.strength key ready.now → buf.new ≡ cleared (length buf.old) (opened (S.Stream.meaning self.now.stream) self.now.strength key ready.now.nonce header.now iv.now buf.old) }
    {
        self.mask_text(ready, iv, buf);
        let again = self.siv_bytes(ready, header, buf);
        if !same_bytes(iv, &again[..self.strength.siv_len()]) {
            buf.fill(0);
            return Err(Refusal::WrongSiv);
        }
        Ok(())
    }

    // Seals a text where it stands: the ciphertext takes its place, and the SIV
    // is written to the front of `siv_out`.
    pub fn seal_in_place(
        &self,
        context: Context<'_>,
        text: &mut [u8],
        siv_out: &mut [u8; 32],
    ) -> Result<(), Refusal>
        ensures { Seals (input_checks (length context.entry.key.now) (length context.entry.nonce.now) (length context.entry.header.now) (length text.old)) (S.Stream.meaning self.now.stream) self.now.strength context.entry.key.now context.entry.nonce.now context.entry.header.now text.old siv_out.old siv_out.new text.old text.new result }
    {
        let nonce = context.check(text)?;
        let ready = self.ready(context.key, nonce);
        let iv = self.seal_buffer(&ready, context.header, text);
        let len = self.strength.siv_len();
        siv_out[..len].copy_from_slice(&iv[..len]);
        Ok(())
    }

    // Opens a ciphertext where it stands: the text takes its place, or zeros do
    // where the SIV is wrong.
    pub fn open_in_place(
        &self,
        context: Context<'_>,
        iv: &[u8],
        buf: &mut [u8],
    ) -> Result<(), Refusal>
        ensures { Opens (siv_checks self.now.strength (length context.entry.key.now) (length context.entry.nonce.now) (length context.entry.header.now) (length buf.old) (length iv.now)) (opened (S.Stream.meaning self.now.stream) self.now.strength context.entry.key.now context.entry.nonce.now context.entry.header.now iv.now buf.old) (length buf.old) buf.old buf.new result }
    {
        let nonce = context.check(buf)?;
        if iv.len() != self.strength.siv_len() {
            return Err(Refusal::SivLength);
        }
        let ready = self.ready(context.key, nonce);
        self.open_buffer(&ready, context.header, iv, buf)
    }

    // Seals a text: the ciphertext is written to the front of `out`, the SIV to
    // the front of `siv_out`.
    pub fn seal(
        &self,
        context: Context<'_>,
        text: &[u8],
        siv_out: &mut [u8],
        out: &mut [u8],
    ) -> Result<(), Refusal>
        ensures { Seals (seal_checks self.now.strength (length context.entry.key.now) (length context.entry.nonce.now) (length context.entry.header.now) (length text.now) (length siv_out.old) (length out.old)) (S.Stream.meaning self.now.stream) self.now.strength context.entry.key.now context.entry.nonce.now context.entry.header.now text.now siv_out.old siv_out.new out.old out.new result }
    {
        let nonce = context.check(text)?;
        let len = self.strength.siv_len();
        if siv_out.len() < len || out.len() < text.len() {
            return Err(Refusal::ShortOutput);
        }
        let part = &mut out[..text.len()];
        part.copy_from_slice(text);
        let ready = self.ready(context.key, nonce);
        let made = self.seal_buffer(&ready, context.header, part);
        siv_out[..len].copy_from_slice(&made[..len]);
        Ok(())
    }

    // Opens a ciphertext: the text is written to the front of `out`, or zeros
    // are where the SIV is wrong.
    pub fn open(
        &self,
        context: Context<'_>,
        iv: &[u8],
        cipher: &[u8],
        out: &mut [u8],
    ) -> Result<(), Refusal>
        ensures { Opens (open_checks self.now.strength (length context.entry.key.now) (length context.entry.nonce.now) (length context.entry.header.now) (length cipher.now) (length iv.now) (length out.old)) (opened (S.Stream.meaning self.now.stream) self.now.strength context.entry.key.now context.entry.nonce.now context.entry.header.now iv.now cipher.now) (length cipher.now) out.old out.new result }
    {
        let nonce = context.check(cipher)?;
        if iv.len() != self.strength.siv_len() {
            return Err(Refusal::SivLength);
        }
        if out.len() < cipher.len() {
            return Err(Refusal::ShortOutput);
        }
        let part = &mut out[..cipher.len()];
        part.copy_from_slice(cipher);
        let ready = self.ready(context.key, nonce);
        self.open_buffer(&ready, context.header, iv, part)
    }
}

// The law that what was sealed opens to the same text.
pub fn sealed_opens()
    ensures { SealedOpens }
{}

// The law that what opens is what sealing gives, byte for byte.
pub fn opened_was_sealed()
    ensures { OpenedWasSealed }
{}

// The law that a SIV and a ciphertext have at most one text.
pub fn one_text()
    ensures { OneText }
{}
