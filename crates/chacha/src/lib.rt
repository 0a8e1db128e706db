//! ChaCha of RFC 8439 with 8, 12 or 20 rounds, as a key stream.

#![tactic(auto)]

ghost use Rattle.std.specs.Prelude.{◌≡◌, ℕ, ◌+◌, ◌*◌, ◌/◌, ◌%◌, ◌<◌, ◌≤◌, length, slice_index, slice_set};
ghost use Rattle.std.specs.Simd.Lanes.{zip2};
ghost use Rattle.chacha.specs.ChaCha.{line, quarter_round, double_round, mixed, start, serialised, add32, word_at, byte_at};
ghost use Rattle.chacha.specs.Rounds.{count, chacha_of, Counted, Made};
ghost use Rattle.chacha.specs.Words.{stream_byte};
ghost use Rattle.std.proofs.Common.{rules};

use refusal::Refusal;
use std::array;
use stream::{Blocks, Stream, xor_blocks};

// One line of a quarter round: a += b; d ^= a; d <<<= n.
fn mix(s: &mut [u32; 16], a: usize, b: usize, d: usize, n: u32)
    requires { (a < 16) × ((b < 16) × (d < 16)) }
    ensures { s.new ≡ line a b d n s.old }
{
    s[a] = s[a].wrapping_add(s[b]);
    s[d] = (s[d] ^ s[a]).rotate_left(n);
}

fn quarter_round(s: &mut [u32; 16], a: usize, b: usize, c: usize, d: usize)
    requires { (a < 16) × ((b < 16) × ((c < 16) × (d < 16))) }
    ensures { s.new ≡ quarter_round a b c d s.old }
{
    mix(s, a, b, d, 16);
    mix(s, c, d, b, 12);
    mix(s, a, b, d, 8);
    mix(s, c, d, b, 7);
}

// Two rounds: the columns, then the diagonals.
fn double_round(s: &mut [u32; 16])
    ensures { s.new ≡ double_round s.old }
{
    quarter_round(s, 0, 4, 8, 12);
    quarter_round(s, 1, 5, 9, 13);
    quarter_round(s, 2, 6, 10, 14);
    quarter_round(s, 3, 7, 11, 15);
    quarter_round(s, 0, 5, 10, 15);
    quarter_round(s, 1, 6, 11, 12);
    quarter_round(s, 2, 7, 8, 13);
    quarter_round(s, 3, 4, 9, 14);
}

// Each word of one state added to that of the other.
fn sums(s: &[u32; 16], more: &[u32; 16]) -> [u32; 16]
    ensures { result ≡ zip2 add32 s.now more.now }
{
    array::from_fn(|j| s[j].wrapping_add(more[j]))
}

// The block function on words: the double rounds, then the start added again.
fn permute(start: &[u32; 16], doubles: u32) -> [u32; 16]
    ensures { result ≡ mixed doubles start.now }
{
    let mut s = *start;
    for _i in 0..doubles {
        double_round(&mut s);
    }
    sums(&s, start)
}

// The bytes of sixteen words, lowest byte first.
fn serialise(s: &[u32; 16]) -> [u8; 64]
    ensures { result ≡ serialised s.now }
{
    let mut out = [0; 64];
    // By ranges: of what `chunks_exact_mut` lends, a proof loses what is written.
    for (j, word) in s.iter().enumerate() {
        out[4 * j..4 * j + 4].copy_from_slice(&word.to_le_bytes());
    }
    out
}

// The word that four bytes spell from `at` on, lowest byte first.
fn word(bytes: &[u8], at: usize) -> u32
    requires { at + 4 ≤ length bytes.now }
    ensures { result ≡ word_at bytes.now at }
{
    u32::from_le_bytes(bytes[at..at + 4].try_into().unwrap())
}

// The state that the blocks for a seed and a nonce begin with, but for the
// block count, which stands at index 12.
fn first_state(seed: &[u8; 32], nonce: &[u8; 12]) -> [u32; 16]
    ensures { (n : ℕ) → slice_set result 12 n ≡ start seed.now nonce.now n }
{
    [
        0x6170_7865,
        0x3320_646e,
        0x7962_2d32,
        0x6b20_6574,
        word(seed, 0),
        word(seed, 4),
        word(seed, 8),
        word(seed, 12),
        word(seed, 16),
        word(seed, 20),
        word(seed, 24),
        word(seed, 28),
        0,
        word(nonce, 0),
        word(nonce, 4),
        word(nonce, 8),
    ]
}

// The round counts that ChaCha has.
#[derive(Clone, Copy)]
enum Rounds {
    Eight,
    Twelve,
    Twenty,
}

impl TryFrom<u8> for Rounds {
    type Error = Refusal;

    ghost try_from_gives = { Counted };

    fn try_from(rounds: u8) -> Result<Rounds, Refusal> {
        match rounds {
            8 => Ok(Rounds::Eight),
            12 => Ok(Rounds::Twelve),
            20 => Ok(Rounds::Twenty),
            _ => Err(Refusal::UnknownSuite),
        }
    }
}

impl From<Rounds> for u8 {
    ghost from_gives = { λ rounds n. n ≡ count rounds };

    fn from(rounds: Rounds) -> u8 {
        match rounds {
            Rounds::Eight => 8,
            Rounds::Twelve => 12,
            Rounds::Twenty => 20,
        }
    }
}

// ChaCha with 8, 12 or 20 rounds: no value of the type has another count.
#[derive(Clone, Copy)]
pub struct ChaCha {
    rounds: Rounds,
}

impl ChaCha {
    // ChaCha with so many rounds; refused if it has not that count.
    pub fn new(rounds: u8) -> Result<ChaCha, Refusal>
        ensures { Made rounds result }
    {
        let rounds = Rounds::try_from(rounds)?;
        Ok(ChaCha { rounds })
    }
}

// A seed and a nonce made ready: the state that each block begins with, but
// for its count, and how many double rounds it goes through.
#[derive(Clone, Copy)]
struct Ready {
    state: [u32; 16],
    doubles: u32,
}

impl Blocks for Ready {
    ghost byte = { λ s place. slice_index (serialised (mixed s.doubles (slice_set s.state 12 (place / 64)))) (place % 64) };

    fn block(&self, index: u32) -> [u8; 64] {
        let mut state = self.state;
        state[12] = index;
        serialise(&permute(&state, self.doubles))
    }
}

impl Stream for ChaCha {
    ghost meaning = { λ s. chacha_of (count s.rounds) };

    ghost counted = { Prim.search rules };

    ghost byted = { λ s. stream_byte (count s.rounds / 2) };

    fn rounds(&self) -> u8 {
        u8::from(self.rounds)
    }

    fn xor(
        &self,
        seed: &[u8; 32],
        nonce: &[u8; 12],
        place: u32,
        buf: &mut [u8],
    ) -> Result<(), Refusal> {
        let ready = Ready {
            state: first_state(seed, nonce),
            doubles: u32::from(self.rounds() / 2),
        };
        xor_blocks(&ready, place, buf)
    }
}
