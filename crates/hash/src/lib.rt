//! HS1-Hash: the almost-universal hash of HS1-SIV, in three strengths.
//!
//! The hash goes once over its input, in blocks of 64 bytes, with all of its
//! t runs together. Header, text and their lengths pass through one block and
//! are never joined in a buffer.

#![tactic(auto)]

ghost use Rattle.std.specs.Prelude.{◌≡◌, ℕ, ◌+◌, ◌-◌, ◌*◌, ◌%◌, ◌^◌, ◌<◌, ◌≤◌, ◌==◌, List, [], ◌++◌, length, take, map, replicate, slice_index};
ghost use Rattle.std.proofs.Common.{rules};
ghost use Rattle.hash.specs.Strength.{hashes, siv_length, subkey_bytes};
ghost use Rattle.hash.specs.Nh.{nh};
ghost use Rattle.hash.specs.Bytes.{number, ints, pad};
ghost use Rattle.hash.specs.Hash.{turn, affine, result_of, result_width, results, hashed, below60};
ghost use Rattle.hash.specs.Running.{Below};
ghost use Rattle.hash.specs.Subkeys.{Reads};
ghost use Rattle.hash.specs.Message.{message};
ghost use borrow.Rule.Slice.PartMut.{put_mid};

use std::marker::Model;

// How strong a sealing is: how many hashes, and how long a SIV.
#[derive(Clone, Copy, PartialEq, Eq, Debug)]
pub enum Strength {
    Lo,
    Mid,
    Hi,
}

// The bytes of a block.
const BLOCK: usize = 64;
// Digits of three bits in a number below 2^60.
const DIGITS: u32 = 20;
// The prime 2^61 - 1.
const PRIME: u64 = 0x1fff_ffff_ffff_ffff;

// The subkeys of the hash. The words of kN and the numbers of kP and kA that
// a strength has stand at the front; what is behind them is not looked at, and
// is there since nothing here takes memory from a heap.
#[derive(Clone, Copy)]
pub struct HashKeys {
    pub k_n: [u32; 36],
    pub k_p: [u64; 6],
    pub k_a: [u64; 18],
}

// The bytes that wait for the next block, at most 64: an array and how many of
// its bytes wait, since nothing here takes memory from a heap. Contracts see
// the list of those bytes.
#[derive(Drop)]
struct Waiting {
    bytes: [u8; BLOCK],
    fill: usize,
}

// A hash under way: the bytes that wait, and the running value of each of the
// hashes of its strength.
#[derive(Drop)]
struct Hasher<'a> {
    strength: Strength,
    keys: &'a HashKeys,
    waiting: Waiting,
    running: [u64; 6],

    // Each running value is below the prime.
    ghost below: { Below running },
}

impl Strength {
    // t, the number of hashes.
    pub fn hashes(self) -> usize
        ensures { result ≡ hashes self }
    {
        match self {
            Strength::Lo => 2,
            Strength::Mid => 4,
            Strength::Hi => 6,
        }
    }

    // L, the length of a SIV in bytes.
    pub fn siv_len(self) -> usize
        ensures { result ≡ siv_length self }
    {
        match self {
            Strength::Lo => 8,
            Strength::Mid => 16,
            Strength::Hi => 32,
        }
    }

    // The number of stream bytes that the subkeys are read from.
    pub fn subkey_len(self) -> usize
        ensures { result ≡ subkey_bytes self }
    {
        match self {
            Strength::Lo => 176,
            Strength::Mid => 272,
            Strength::Hi => 368,
        }
    }
}

// NH, modulo 2^64.
fn nh_sum(k: &[u32], m: &[u32]) -> u64
    ensures { result ≡ nh k.now m.now % 2 ^ 64 }
{
    let (keys, _) = k.as_chunks::<4>();
    let (words, _) = m.as_chunks::<4>();
    let mut sum: u64 = 0;
    for (k, m) in keys.iter().zip(words) {
        let a = u64::from(k[0]) + u64::from(m[0]);
        let b = u64::from(k[1]) + u64::from(m[1]);
        let c = u64::from(k[2]) + u64::from(m[2]);
        let d = u64::from(k[3]) + u64::from(m[3]);
        sum = sum
            .wrapping_add(a.wrapping_mul(c))
            .wrapping_add(b.wrapping_mul(d));
    }
    sum
}

// One step of the polynomial, by the digits of the point k, lowest first.
//
// `power` is h times 8 for each digit passed, modulo the prime: since 2^61 is
// 1 there, its three top bits come round to the bottom. A digit times it is
// at most 7 * (2^61 - 1), below 2^64. The products are summed in two halves.
fn poly_step(h: u64, k: u64, a: u64) -> u64
    requires { (h < 2 ^ 61) × (a < 2 ^ 61) }
    ensures { result ≡ turn (k % 2 ^ 60) h a }
{
    let mut power = h;
    let mut digits = k % 0x1000_0000_0000_0000;
    let mut low = a;
    let mut high = 0;
    for _i in 0..DIGITS {
        let product = digits % 8 * power;
        low += product % 0x1_0000_0000;
        high += product / 0x1_0000_0000;
        power = power % 0x400_0000_0000_0000 * 8 + power / 0x400_0000_0000_0000;
        digits /= 8;
    }
    (low + high / 0x2000_0000 + high % 0x2000_0000 * 0x1_0000_0000) % PRIME
}

// The last step of strength hi: the bytes that h becomes under three numbers.
fn affine_bytes(k: &[u64; 3], h: u64) -> [u8; 4]
    ensures { result ≡ affine k.now h }
{
    let low = k[1].wrapping_mul(h % 0x1_0000_0000);
    let high = k[2].wrapping_mul(h / 0x1_0000_0000);
    let sum = k[0].wrapping_add(low).wrapping_add(high);
    ((sum / 0x1_0000_0000) as u32).to_le_bytes()
}

// A word of so many bytes, the lowest first.
trait Word<const BYTES: usize>: Copy {
    // The number that a word is.
    ghost value: { Self → ℕ };

    fn from_bytes(bytes: [u8; BYTES]) -> Self
        ensures { value result ≡ number bytes.entry };

    // Its bytes are an array that is not empty and can be made.
    ghost fits_memory: { (0 < BYTES) × (BYTES < 2 ^ 63) };
}

impl Word<4> for u32 {
    ghost value = { λ w. w };

    ghost fits_memory = { Prim.search rules };

    fn from_bytes(bytes: [u8; 4]) -> u32
        ensures { result ≡ number bytes }
    {
        u32::from_le_bytes(bytes)
    }
}

impl Word<8> for u64 {
    ghost value = { λ w. w };

    ghost fits_memory = { Prim.search rules };

    fn from_bytes(bytes: [u8; 8]) -> u64
        ensures { result ≡ number bytes }
    {
        u64::from_le_bytes(bytes)
    }
}

// Reads as many words as there is room for.
fn read_words<const BYTES: usize, W: Word<BYTES>>(bytes: &[u8], out: &mut [W])
    requires { length bytes.now ≡ BYTES * length out.old }
    ensures { map W.value out.new ≡ ints BYTES bytes.now }
{
    let (words, _) = bytes.as_chunks::<BYTES>();
    // In a loop over `out.iter_mut().zip(words)` no invariant can name `out`.
    for (i, word) in words.iter().enumerate() {
        out[i] = W::from_bytes(*word);
    }
}

impl HashKeys {
    // Reads the subkeys of the hash from the bytes that a stream gives for a
    // key. Of these the first 32 are KS, which is not the hash's.
    pub fn read(strength: Strength, bytes: &[u8; 368]) -> HashKeys
        ensures { Reads strength bytes.now result }
    {
        let t = strength.hashes();
        let words = 12 + 4 * t;
        let points = 32 + 4 * words;
        let scales = points + 8 * t;
        let mut k_n = [0; 36];
        let mut k_p = [0; 6];
        let mut k_a = [0; 18];
        read_words(&bytes[32..points], &mut k_n[..words]);
        read_words(&bytes[points..scales], &mut k_p[..t]);
        read_words(&bytes[scales..scales + 24 * t], &mut k_a[..3 * t]);
        HashKeys { k_n, k_p, k_a }
    }
}

impl Model for Waiting {
    ghost Value = { List ℕ };

    ghost view = { λ w. take w.fill w.bytes };

    ghost invariant = { λ w. w.fill ≤ 64 };
}

impl Waiting {
    fn new() -> Waiting
        ensures { result ≡ [] }
    {
        Waiting {
            bytes: [0; BLOCK],
            fill: 0,
        }
    }

    fn len(&self) -> usize
        ensures { (result ≡ length self.now) × (result ≤ 64) }
    {
        self.fill
    }

    fn is_empty(&self) -> bool
        ensures { result ≡ (length self.now == 0) }
    {
        self.fill == 0
    }

    // Takes as many bytes as there is room for, and gives back the others.
    fn take_from<'a>(&mut self, part: &'a [u8]) -> &'a [u8]
        ensures all { self.new ++ result.now ≡ self.old ++ part.now }
        ensures left { length result.now ≡ length part.now - (64 - length self.old) }
    {
        let count = part.len().min(BLOCK - self.fill);
        let (front, rest) = part.split_at(count);
        self.bytes[self.fill..self.fill + count].copy_from_slice(front);
        self.fill += count;
        rest
    }

    // The bytes that wait, with zeros behind them.
    fn block(&self) -> [u8; BLOCK]
        ensures { result ≡ self.now ++ replicate (64 - length self.now) 0 }
    {
        let mut block = [0; BLOCK];
        block[..self.fill].copy_from_slice(&self.bytes[..self.fill]);
        block
    }

    fn clear(&mut self)
        ensures { self.new ≡ [] }
    {
        self.fill = 0;
    }
}

impl Hasher<'_> {
    ghost use Rattle.std.specs.Prelude.{◌≡◌, ◌+◌, ◌%◌, ◌^◌, ◌<◌, List, ℕ, [], ◌++◌, length};
    ghost use Rattle.hash.specs.Nh.{nh};
    ghost use Rattle.hash.specs.Bytes.{pad};
    ghost use Rattle.hash.specs.Hash.{block_number, hashed, below60};
    ghost use Rattle.hash.specs.Running.{nh_part};
    ghost use Rattle.hash.specs.declared.HashKeys.{HashKeys};
    ghost use Rattle.hash.specs.declared.Strength.{Strength};
    ghost use Rattle.hash.specs.Hasher.{Turns, Takes, Passes, Holds};

    // A hash that has taken in nothing.
    fn new(strength: Strength, keys: &HashKeys) -> Hasher<'_>
        ensures { Holds strength keys.now result [] }
    {
        Hasher {
            strength,
            keys,
            waiting: Waiting::new(),
            running: [1; 6],
        }
    }

    // Turns the running values by one block: its words, and its length modulo 16.
    fn turn(&mut self, words: &[u32], odd: u64)
        requires { odd < 16 }
        ensures { Turns (λ i. nh (nh_part self.old.keys.now i) words.now % 2 ^ 60 + odd) self.old self.new }
    {
        let t = self.strength.hashes();
        let keys = self.keys;
        // A copy: a field beside a ghost field cannot be lent as `&mut` here yet.
        let mut running = self.running;
        // Zipped with the keys, no invariant could name the values written.
        for (i, h) in running[..t].iter_mut().enumerate() {
            let number = nh_sum(&keys.k_n[4 * i..4 * i + 16], words) % 0x1000_0000_0000_0000 + odd;
            *h = poly_step(*h, keys.k_p[i], number);
        }
        self.running = running;
    }

    // The same for a block of 64 bytes.
    fn turn_block(&mut self, block: &[u8; BLOCK])
        ensures { Turns (λ i. block_number (nh_part self.old.keys.now i) block.now) self.old self.new }
    {
        let mut words = [0; 16];
        read_words(block, &mut words);
        self.turn(&words, 0);
    }

    // Makes room where a whole block waits: more input is there.
    fn flush(&mut self)
        ensures room { length self.new.waiting < 64 }
        ensures goes { Takes self.old [] self.new }
    {
        if self.waiting.len() == BLOCK {
            let block = self.waiting.block();
            self.turn_block(&block);
            self.waiting.clear();
        }
    }

    // Takes in some of the input at hand, which is not empty, and gives back the rest.
    fn take_next<'a>(&mut self, part: &'a [u8]) -> &'a [u8]
        requires { 0 < length part.now }
        ensures count { length result.now < length part.now }
        ensures goes { Passes self.old part.now result.now self.new }
    {
        self.flush();
        match part.split_first_chunk::<BLOCK>() {
            Some((block, rest)) if self.waiting.is_empty() && !rest.is_empty() => {
                self.turn_block(block);
                rest
            }
            _ => self.waiting.take_from(part),
        }
    }

    // Takes in a part of the input.
    fn absorb(&mut self, part: &[u8])
        ensures { ((strength : Strength) (keys : HashKeys) (seen : List ℕ) → Holds strength keys self.old seen → Holds strength keys self.new (seen ++ part.now)) }
    {
        let mut rest = part;
        while !rest.is_empty() {
            rest = self.take_next(rest);
        }
    }

    // Takes in a part of the input, and zeros up to a multiple of 16 bytes.
    fn absorb_padded(&mut self, part: &[u8])
        ensures { ((strength : Strength) (keys : HashKeys) (seen : List ℕ) → Holds strength keys self.old seen → Holds strength keys self.new (seen ++ pad 16 part.now)) }
    {
        let zeros = [0; 16];
        let count = (16 - part.len() % 16) % 16;
        self.absorb(part);
        self.absorb(&zeros[..count]);
    }

    // Ends the input: turns by the last block, and gives the joined results.
    fn finish(mut self) -> [u8; 32]
        ensures { ((strength : Strength) (keys : HashKeys) (seen : List ℕ) → Holds strength keys self.entry seen → result ≡ hashed strength keys.k_n (below60 keys.k_p) keys.k_a seen) }
    {
        let len = self.waiting.len();
        let block = self.waiting.block();
        let mut words = [0; 16];
        read_words(&block, &mut words);
        let count = len.div_ceil(16) * 4;
        self.turn(&words[..count], (len % 16) as u64);
        join(self.strength, &self.keys.k_a, &self.running)
    }
}

// Writes the result of hash i to its place in the joined results.
fn write_result(out: &mut [u8; 32], strength: Strength, k: &[u64; 3], h: u64, i: usize)
    requires { i < hashes strength }
    ensures { out.new ≡ put_mid (result_width strength * i) (result_width strength) out.old (result_of strength k.now h) }
{
    match strength {
        Strength::Lo | Strength::Mid => {
            out[8 * i..8 * i + 8].copy_from_slice(&h.to_le_bytes());
        }
        Strength::Hi => {
            out[4 * i..4 * i + 4].copy_from_slice(&affine_bytes(k, h));
        }
    }
}

// The results for h of each hash, joined and padded to 32 bytes.
fn join(strength: Strength, k: &[u64; 18], h: &[u64; 6]) -> [u8; 32]
    ensures { result ≡ pad 32 (results strength k.now (λ i. slice_index h.now i) (hashes strength)) }
{
    let mut out = [0; 32];
    let (scales, _) = k.as_chunks::<3>();
    for (i, h) in h[..strength.hashes()].iter().enumerate() {
        write_result(&mut out, strength, &scales[i], *h, i);
    }
    out
}

// HS1-Hash of an input: the t results, joined and padded to 32 bytes.
pub fn hash(strength: Strength, keys: &HashKeys, input: &[u8]) -> [u8; 32]
    ensures { result ≡ hashed strength keys.now.k_n (below60 keys.now.k_p) keys.now.k_a input.now }
{
    let mut hasher = Hasher::new(strength, keys);
    hasher.absorb(input);
    hasher.finish()
}

// HS1-Hash of what sealing hashes: header and text, each padded, and their lengths.
pub fn hash_message(strength: Strength, keys: &HashKeys, header: &[u8], text: &[u8]) -> [u8; 32]
    ensures { result ≡ hashed strength keys.now.k_n (below60 keys.now.k_p) keys.now.k_a (message header.now text.now) }
{
    let mut hasher = Hasher::new(strength, keys);
    hasher.absorb_padded(header);
    hasher.absorb_padded(text);
    hasher.absorb(&header.len().to_le_bytes());
    hasher.absorb(&text.len().to_le_bytes());
    hasher.finish()
}
