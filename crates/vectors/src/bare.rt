//! Cases of bare sealing and opening by suite number.

use crate::hex::decode;
use anyhow::anyhow;
use hs1::Context;
use std::alloc::{AllocError, Global};
use suites::{code, open_suite, seal_suite};

// What a call is made with. `input` is the text or the ciphertext.
#[derive(Drop)]
struct Inputs {
    suite: u32,
    key: Vec<u8>,
    nonce: Vec<u8>,
    header: Vec<u8>,
    input: Vec<u8>,
}

// A buffer before or after a call, filled with a byte that no call writes by chance.
fn filled(heap: Global, len: usize) -> Result<Vec<u8>, AllocError> {
    vec![in heap; 0xaau8; len]
}

impl Inputs {
    fn read(
        heap: Global,
        suite: &str,
        key: &str,
        nonce: &str,
        header: &str,
        input: &str,
    ) -> anyhow::Result<Inputs> {
        Ok(Inputs {
            suite: suite.parse::<u32>()?,
            key: decode(heap, key)?,
            nonce: decode(heap, nonce)?,
            header: decode(heap, header)?,
            input: decode(heap, input)?,
        })
    }

    fn context(&self) -> Context<'_> {
        Context {
            key: &self.key,
            nonce: &self.nonce,
            header: &self.header,
        }
    }

    // Seals the text, and gives the number of the answer.
    fn seal(&self, siv: &mut [u8], out: &mut [u8]) -> u8 {
        code(seal_suite(self.suite, self.context(), &self.input, siv, out))
    }

    // Opens the ciphertext, and gives the number of the answer.
    fn open(&self, siv: &[u8], out: &mut [u8]) -> u8 {
        code(open_suite(self.suite, self.context(), siv, &self.input, out))
    }
}

// Whether sealing gives that SIV and ciphertext, and opening gives the text back.
pub fn both_ways(heap: Global, case: &[&str]) -> anyhow::Result<bool> {
    let [suite, key, nonce, header, text, siv, cipher] = case else {
        return Err(anyhow!("a line that is no case of sealing and opening"));
    };
    let siv = decode(heap, siv)?;
    let sealing = Inputs::read(heap, suite, key, nonce, header, text)?;
    let opening = Inputs::read(heap, suite, key, nonce, header, cipher)?;
    let mut siv_out = filled(heap, siv.len())?;
    let mut out = filled(heap, opening.input.len())?;
    let sealed = sealing.seal(&mut siv_out, &mut out) == 0
        && siv_out.as_slice() == siv.as_slice()
        && out.as_slice() == opening.input.as_slice();
    let opened = opening.open(&siv, &mut out) == 0;
    Ok(sealed && opened && out.as_slice() == sealing.input.as_slice())
}

// What a call is expected to answer and to leave.
#[derive(Drop)]
struct Outcome {
    siv_room: usize,
    out_room: usize,
    refused: u8,
    siv_after: Vec<u8>,
    out_after: Vec<u8>,
}

impl Outcome {
    fn read(
        heap: Global,
        siv_room: &str,
        out_room: &str,
        refused: &str,
        siv_after: &str,
        out_after: &str,
    ) -> anyhow::Result<Outcome> {
        Ok(Outcome {
            siv_room: siv_room.parse::<usize>()?,
            out_room: out_room.parse::<usize>()?,
            refused: refused.parse::<u8>()?,
            siv_after: decode(heap, siv_after)?,
            out_after: decode(heap, out_after)?,
        })
    }
}

// Whether sealing answers so and leaves the two buffers so. The SIV of the
// case is not looked at.
pub fn seals(heap: Global, case: &[&str]) -> anyhow::Result<bool> {
    let [suite, key, nonce, header, text, _, a, b, c, d, e] = case else {
        return Err(anyhow!("a line that is no case of sealing"));
    };
    let inputs = Inputs::read(heap, suite, key, nonce, header, text)?;
    let expected = Outcome::read(heap, a, b, c, d, e)?;
    let mut siv = filled(heap, expected.siv_room)?;
    let mut out = filled(heap, expected.out_room)?;
    let answer = inputs.seal(&mut siv, &mut out);
    Ok(
        answer == expected.refused
            && siv.as_slice() == expected.siv_after.as_slice()
            && out.as_slice() == expected.out_after.as_slice(),
    )
}

// Whether opening answers so and leaves the buffer so.
pub fn opens(heap: Global, case: &[&str]) -> anyhow::Result<bool> {
    let [suite, key, nonce, header, cipher, siv, a, b, c, d, e] = case else {
        return Err(anyhow!("a line that is no case of opening"));
    };
    let inputs = Inputs::read(heap, suite, key, nonce, header, cipher)?;
    let expected = Outcome::read(heap, a, b, c, d, e)?;
    let mut out = filled(heap, expected.out_room)?;
    let answer = inputs.open(&decode(heap, siv)?, &mut out);
    Ok(answer == expected.refused && out.as_slice() == expected.out_after.as_slice())
}
