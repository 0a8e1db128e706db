//! AES-256 of FIPS 197, as a key stream in counter form.

#![tactic(auto)]

ghost use Rattle.std.specs.Prelude.{◌≡◌, ℕ, ◌+◌, ◌*◌, ◌/◌, ◌%◌, ◌<◌, ◌≤◌, ◌++◌, length, bit_xor};
ghost use Rattle.std.specs.Simd.Lanes.{zip2};
ghost use Rattle.aes.specs.Aes.{sub_bytes, shift_rows, mixed_byte, mix_columns, add_round_key, temp_byte, key_byte, expanded_key, encrypted, four_bytes, byte_under, aes_of};
ghost use Rattle.stream.specs.Stream.{run};
ghost use Rattle.std.proofs.Common.{rules};

use field::{multiply, substitute};
use refusal::Refusal;
use std::array;
use stream::{Blocks, Stream, xor_blocks, xor_bytes};

// Each byte of the state through the S-box.
fn sub_bytes(s: &[u8; 16]) -> [u8; 16]
    ensures { result ≡ sub_bytes s.now }
{
    s.map(substitute)
}

// Row r of the state moves to the left by r columns.
fn shift_rows(s: &[u8; 16]) -> [u8; 16]
    ensures { result ≡ shift_rows s.now }
{
    array::from_fn(|i| s[i % 4 + 4 * ((i / 4 + i % 4) % 4)])
}

// A byte of the mixed state.
fn mixed(s: &[u8; 16], row: usize, column: usize) -> u8
    requires { (row < 4) × (column < 4) }
    ensures { result ≡ mixed_byte s.now row column }
{
    multiply(s[row + 4 * column], 2)
        ^ multiply(s[(row + 1) % 4 + 4 * column], 3)
        ^ s[(row + 2) % 4 + 4 * column]
        ^ s[(row + 3) % 4 + 4 * column]
}

// Each column of the state mixed.
fn mix_columns(s: &[u8; 16]) -> [u8; 16]
    ensures { result ≡ mix_columns s.now }
{
    array::from_fn(|i| mixed(s, i % 4, i / 4))
}

// What is added to word i of the expanded key, its byte k.
fn temp_byte(w: &[u8; 240], i: usize, k: usize) -> u8
    requires { (8 ≤ i) × ((i < 60) × (k < 4)) }
    ensures { result ≡ temp_byte w.now i k }
{
    let before = 4 * (i - 1);
    if i % 8 == 0 {
        // the round constant, a power of x
        let constant = if k == 0 { 1 << (i / 8 - 1) } else { 0 };
        substitute(w[before + (k + 1) % 4]) ^ constant
    } else if i % 8 == 4 {
        substitute(w[before + k])
    } else {
        w[before + k]
    }
}

// Byte k of word i of the expanded key.
fn key_byte(w: &[u8; 240], i: usize, k: usize) -> u8
    requires { (8 ≤ i) × ((i < 60) × (k < 4)) }
    ensures { result ≡ key_byte w.now i k }
{
    w[4 * (i - 8) + k] ^ temp_byte(w, i, k)
}

// The expanded key: the key's eight words and 52 more, each from those before.
fn expand(key: &[u8; 32]) -> [u8; 240]
    ensures { result ≡ expanded_key key.now }
{
    let mut w = [0; 240];
    w[..32].copy_from_slice(key);
    // The number of a word decides how it is made.
    for i in 8..60 {
        let word: [u8; 4] = array::from_fn(|k| key_byte(&w, i, k));
        w[4 * i..4 * i + 4].copy_from_slice(&word);
    }
    w
}

// A round, with 16 bytes of the expanded key.
fn full_round(s: &mut [u8; 16], round_key: &[u8; 16])
    ensures { s.new ≡ zip2 bit_xor (mix_columns (shift_rows (sub_bytes s.old))) round_key.now }
{
    *s = mix_columns(&shift_rows(&sub_bytes(s)));
    xor_bytes(s, round_key);
}

// The last round, which mixes no columns.
fn last_round(s: &mut [u8; 16], round_key: &[u8; 16])
    ensures { s.new ≡ zip2 bit_xor (shift_rows (sub_bytes s.old)) round_key.now }
{
    *s = shift_rows(&sub_bytes(s));
    xor_bytes(s, round_key);
}

// A block encrypted under an expanded key.
fn encrypt(expanded: &[u8; 240], block: &[u8; 16]) -> [u8; 16]
    ensures { result ≡ encrypted expanded.now block.now }
{
    let (round_keys, _) = expanded.as_chunks();
    let mut s = *block;
    xor_bytes(&mut s, &round_keys[0]);
    for round_key in &round_keys[1..14] {
        full_round(&mut s, round_key);
    }
    last_round(&mut s, &round_keys[14]);
    s
}

// One block of 16 bytes encrypted under a key of 32.
pub fn encrypt_block(key: &[u8; 32], block: &[u8; 16]) -> [u8; 16]
    ensures { result ≡ encrypted (expanded_key key.now) block.now }
{
    encrypt(&expand(key), block)
}

// A seed and a nonce made ready: the key expanded once for all blocks.
#[derive(Clone, Copy)]
struct Ready {
    expanded: [u8; 240],
    nonce: [u8; 12],
}

impl Ready {
    // What block j of 16 bytes encrypts: the nonce, and j as 4 bytes, highest
    // first.
    fn counted(&self, j: u64) -> [u8; 16]
        ensures { result ≡ self.now.nonce ++ four_bytes j }
    {
        let mut block = [0; 16];
        block[..12].copy_from_slice(&self.nonce);
        block[12..].copy_from_slice(&j.to_be_bytes()[4..]);
        block
    }

    // Part q of block `index` of 64 bytes: the bytes at 16 places.
    fn part(&self, index: u32, q: u8) -> [u8; 16]
        ensures { result ≡ run (byte_under self.now.expanded self.now.nonce) (64 * index + 16 * q) 16 }
    {
        encrypt(
            &self.expanded,
            &self.counted(4 * u64::from(index) + u64::from(q)),
        )
    }
}

impl Blocks for Ready {
    ghost byte = { λ s. byte_under s.expanded s.nonce };

    fn block(&self, index: u32) -> [u8; 64] {
        let parts = [0, 1, 2, 3].map(
            |q|
                ensures { result ≡ run (byte_under self.entry.now.expanded self.entry.now.nonce) (64 * index + 16 * q) 16 }
            { self.part(index, q) },
        );
        let mut out = [0; 64];
        out.copy_from_slice(parts.as_flattened());
        out
    }
}

// AES-256 as a key stream.
#[derive(Clone, Copy)]
pub struct Aes256;

impl Stream for Aes256 {
    ghost meaning = { λ _. aes_of };

    ghost counted = { Prim.search rules };

    ghost byted = { Prim.search rules };

    fn rounds(&self) -> u8 {
        14
    }

    fn xor(
        &self,
        seed: &[u8; 32],
        nonce: &[u8; 12],
        place: u32,
        buf: &mut [u8],
    ) -> Result<(), Refusal> {
        let ready = Ready {
            expanded: expand(seed),
            nonce: *nonce,
        };
        xor_blocks(&ready, place, buf)
    }
}
