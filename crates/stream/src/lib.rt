//! Key streams: the interface that all sealing is written against, and what
//! can be said of any stream.

#![tactic(auto)]

ghost use Rattle.std.specs.Prelude.{◌≡◌, ℕ, ◌*◌, ◌<◌, List, ◌++◌, length, drop, bit_xor};
ghost use Rattle.std.specs.Simd.Lanes.{zip2};
ghost use Rattle.stream.specs.Stream.{StreamOf, Xored, run};

use refusal::Refusal;

// The places of a stream go from 0 to one below this.
pub const PLACES: u32 = 1_048_576;

// A key stream: a round count, and one byte for each seed, nonce and place.
//
// Both calls take `&self` and a stream has no cell, so no call can change the
// round count or the meaning.
pub trait Stream {
    // what the stream means
    ghost meaning: { Self → StreamOf };

    // The round count.
    fn rounds(&self) -> u8
        ensures { result ≡ (meaning self.now).rounds };

    // Exclusive-ors the buffer with the stream's bytes from `place` on.
    // Refuses, the buffer untouched, exactly when the buffer would reach past
    // the last place.
    fn xor(
        &self,
        seed: &[u8; 32],
        nonce: &[u8; 12],
        place: u32,
        buf: &mut [u8],
    ) -> Result<(), Refusal>
        ensures { Xored ((meaning self.now).byte seed.now nonce.now) place buf.old buf.new result };

    // the round count is at most 255
    ghost counted: { (s : Self) → (meaning s).rounds < 256 };

    // what stands at a place is a byte
    ghost byted: { (s : Self) (seed nonce : List ℕ) (place : ℕ) → (meaning s).byte seed nonce place < 256 };
}

// A borrowed stream is the stream behind the reference.
impl<S: Stream> Stream for &S {
    ghost meaning = { λ s. S.meaning s.now };

    fn rounds(&self) -> u8 {
        (**self).rounds()
    }

    fn xor(
        &self,
        seed: &[u8; 32],
        nonce: &[u8; 12],
        place: u32,
        buf: &mut [u8],
    ) -> Result<(), Refusal> {
        (**self).xor(seed, nonce, place, buf)
    }

    ghost counted = { λ s. S.counted s.now };

    ghost byted = { λ s. S.byted s.now };
}

// What a stream is once a seed and a nonce are fixed, where it comes in blocks
// of 64 bytes.
pub trait Blocks {
    // the byte at each place
    ghost byte: { Self → ℕ → ℕ };

    // The bytes at the 64 places from 64 times `index` on.
    fn block(&self, index: u32) -> [u8; 64]
        ensures { result ≡ run (byte self.now) (64 * index) 64 };
}

// Exclusive-ors each byte of `part` with the byte of `pad` at its index, as far
// as both go; the rest of `part` stays as it was.
pub fn xor_bytes(part: &mut [u8], pad: &[u8])
    ensures { part.new ≡ zip2 bit_xor part.old pad.now ++ drop (length pad.now) part.old }
{
    let n = part.len().min(pad.len());
    // By index: of what a `zip` with `iter_mut` writes, a proof knows nothing.
    for (i, mask) in pad[..n].iter().enumerate() {
        part[i] ^= *mask;
    }
}

// The working call of a stream that comes in blocks: each block is made once,
// and the first and the last may be used in part.
pub fn xor_blocks<B: Blocks>(blocks: &B, place: u32, buf: &mut [u8]) -> Result<(), Refusal>
    ensures { Xored (B.Blocks.byte blocks.now) place buf.old buf.new result }
{
    if place > PLACES || buf.len() > (PLACES - place) as usize {
        return Err(Refusal::PastStream);
    }
    if buf.is_empty() {
        return Ok(());
    }
    let start = place as usize;
    let end = start + buf.len();
    xor_bytes(buf, &blocks.block(place / 64)[start % 64..]);
    // By ranges: of what is written through `chunks_mut`, a proof knows nothing.
    for index in start / 64 + 1..end.div_ceil(64) {
        xor_bytes(&mut buf[64 * index - start..], &blocks.block(index as u32));
    }
    Ok(())
}
