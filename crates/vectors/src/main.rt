//! Runs outside vectors through the library and counts how many agree.
//!
//! Standard input has a case to a line, its fields parted by single spaces,
//! bytes in hexadecimal (`-` for none) and places in decimal:
//!
//! - `# TITLE` begins a group of cases;
//! - `STREAM seed nonce place bytes`: those bytes stand there in the stream;
//! - `xor STREAM seed nonce place text masked`: the text is masked to that;
//! - `block aes256 key text encrypted`: AES-256 encrypts the block to that;
//! - `bare suite key nonce header text siv ciphertext`: sealing gives that SIV
//!   and ciphertext, and opening gives the text back;
//! - `seal suite key nonce header text siv siv_room out_room refused siv_after
//!   out_after` and `open ..` alike: the call is made with buffers of those
//!   sizes, filled with aa, answers that number (0 for done) and leaves those
//!   bytes.
//!
//! A group's line on standard output says how many of its cases agree.

#![tactic(auto)]

mod bare;
mod hex;

use aes::{Aes256, encrypt_block};
use anyhow::anyhow;
use chacha::ChaCha;
use hex::{decode, decode_array, encode};
use std::alloc::Global;
use std::fmt;
use stream::Stream;

// How many of a group's cases agree.
#[derive(Clone, Copy, Default)]
struct Tally {
    cases: u32,
    agree: u32,
}

impl Tally {
    fn count(&mut self, agrees: bool) {
        self.cases = self.cases.saturating_add(1);
        self.agree = self.agree.saturating_add(u32::from(agrees));
    }
}

impl fmt::Display for Tally {
    fn fmt<W: fmt::Write>(&self, f: &mut fmt::Formatter<W>) -> fmt::Result {
        write!(f, "{} of {} agree", self.agree, self.cases)
    }
}

// The ChaCha that a name stands for.
fn chacha(name: &str) -> anyhow::Result<ChaCha> {
    let rounds = match name {
        "chacha8" => 8,
        "chacha12" => 12,
        "chacha20" => 20,
        _ => return Err(anyhow!("no stream has that name")),
    };
    ChaCha::new(rounds).map_err(|_| anyhow!("ChaCha has not that round count"))
}

// A case of a stream: what is masked, with what, and what it should become.
#[derive(Drop)]
struct Masking {
    seed: [u8; 32],
    nonce: [u8; 12],
    place: u32,
    text: Vec<u8>,
    expected: Vec<u8>,
}

impl Masking {
    fn agrees<S: Stream>(mut self, stream: &S) -> bool {
        let done = stream.xor(&self.seed, &self.nonce, self.place, &mut self.text);
        done.is_ok() && self.text.as_slice() == self.expected.as_slice()
    }
}

// Whether the stream of that name masks as it should.
fn masks(name: &str, case: Masking) -> anyhow::Result<bool> {
    match name {
        "aes256" => Ok(case.agrees(&Aes256)),
        _ => Ok(case.agrees(&chacha(name)?)),
    }
}

// The case of a stream that a line's fields spell, but for the text.
fn make_masking(
    heap: Global,
    seed: &str,
    nonce: &str,
    place: &str,
    text: Vec<u8>,
    expected: &str,
) -> anyhow::Result<Masking> {
    Ok(Masking {
        seed: decode_array(heap, seed)?,
        nonce: decode_array(heap, nonce)?,
        place: place.parse::<u32>()?,
        text,
        expected: decode(heap, expected)?,
    })
}

// Whether a case of a stream agrees.
fn stream_agrees(heap: Global, fields: &[&str]) -> anyhow::Result<bool> {
    match fields {
        ["xor", name, seed, nonce, place, text, masked] => {
            let text = decode(heap, text)?;
            masks(name, make_masking(heap, seed, nonce, place, text, masked)?)
        }
        ["block", "aes256", key, text, encrypted] => {
            let key = decode_array(heap, key)?;
            let block = encrypt_block(&key, &decode_array(heap, text)?);
            Ok(&block[..] == decode(heap, encrypted)?.as_slice())
        }
        [name, seed, nonce, place, bytes] => {
            let zeros = vec![in heap; 0u8; decode(heap, bytes)?.len()]?;
            masks(name, make_masking(heap, seed, nonce, place, zeros, bytes)?)
        }
        _ => Err(anyhow!("a line that is no case")),
    }
}

// Whether a case agrees.
fn agrees(heap: Global, line: &str) -> anyhow::Result<bool> {
    let fields: Vec<&str> = line.split(' ').collect(heap)?;
    match fields.as_slice() {
        ["seal", case @ ..] => bare::seals(heap, case),
        ["open", case @ ..] => bare::opens(heap, case),
        ["bare", case @ ..] => bare::both_ways(heap, case),
        case => stream_agrees(heap, case),
    }
}

// Prints what became of a group.
fn report(rt: &HostRuntime, title: &str, tally: Tally) -> anyhow::Result<()> {
    if tally.cases > 0 {
        println!(rt; "{title}: {tally}")?;
    }
    Ok(())
}

// Runs the cases on standard input, group by group.
fn run_cases(rt: &HostRuntime) -> anyhow::Result<()> {
    let mut title = String::new(rt.alloc());
    let mut tally = Tally::default();
    for line in rt.lines(rt.alloc()) {
        let line = line?;
        match line.as_str().strip_prefix("# ") {
            Some(name) => {
                report(rt, title.as_str(), tally)?;
                tally = Tally::default();
                title = String::from_str(rt.alloc(), name)?;
            }
            None => tally.count(agrees(rt.alloc(), line.as_str())?),
        }
    }
    report(rt, title.as_str(), tally)
}

// Masks a short text, shows it, and unmasks it again.
fn show_masking(rt: &HostRuntime) -> anyhow::Result<()> {
    let stream = chacha("chacha12")?;
    let text = "(panel 7 (cloth 2))";
    let mut buf = text.as_bytes().to_vec(rt.alloc())?;
    let masked = stream.xor(&[1; 32], &[2; 12], 64, &mut buf).is_ok();
    let hex = encode(rt.alloc(), &buf)?;
    println!(rt; "{text} masked with chacha12 from place 64 on: {hex}")?;
    let unmasked = stream.xor(&[1; 32], &[2; 12], 64, &mut buf).is_ok();
    if masked && unmasked && buf.as_slice() == text.as_bytes() {
        println!(rt; "and masked again it is {text}")?;
    }
    Ok(())
}

fn run(rt: &HostRuntime) -> anyhow::Result<()> {
    run_cases(rt)?;
    show_masking(rt)
}

fn main(rt: HostRuntime) -> anyhow::Result<()> {
    run(&rt)
}
