//! Measures the key streams and the sealing of texts. The first argument says
//! how often each is run, 1 where there is none. What was run is printed; how
//! fast it was in bytes per second, the best of the runs, goes to standard
//! error.

#![tactic(auto)]

use anyhow::anyhow;
use chacha::ChaCha;
use hs1::Context;
use std::env;
use std::time::Instant;
use stream::Stream;
use suites::seal_suite;

// how many bytes are masked in a run: as many as a stream has places
const BYTES: usize = 1_048_576;

// The nanoseconds that a run of one stream over the buffer took.
fn one_run<S: Stream>(rt: &HostRuntime, stream: &S, buf: &mut [u8]) -> anyhow::Result<u128> {
    let start = Instant::now(rt)?;
    stream
        .xor(&[7; 32], &[9; 12], 0, buf)
        .map_err(|_| anyhow!("the stream refused"))?;
    Ok(start.elapsed(rt)?.as_nanos())
}

// The nanoseconds that sealing the text took.
fn one_sealing(
    rt: &HostRuntime,
    suite: u32,
    text: &[u8],
    siv: &mut [u8],
    out: &mut [u8],
) -> anyhow::Result<u128> {
    let context = Context {
        key: &[7; 32],
        nonce: &[9; 12],
        header: &[5; 38],
    };
    let start = Instant::now(rt)?;
    seal_suite(suite, context, text, siv, out).map_err(|_| anyhow!("sealing was refused"))?;
    Ok(start.elapsed(rt)?.as_nanos())
}

// The nanoseconds that the best of some runs took.
fn best<F: FnMut() -> anyhow::Result<u128>>(runs: u32, mut run: F) -> anyhow::Result<u128>
    requires { F.IsAlwaysCallable run }
{
    let mut best = u128::MAX;
    for _ in 0..runs {
        best = best.min(run()?);
    }
    Ok(best)
}

// The best of some sealings of a text of that length, in bytes per second.
fn measure_sealing(rt: &HostRuntime, suite: u32, bytes: u32, runs: u32) -> anyhow::Result<u128> {
    let text = vec![in rt.alloc(); 3u8; bytes as usize]?;
    let mut out = vec![in rt.alloc(); 0u8; bytes as usize]?;
    let mut siv = vec![in rt.alloc(); 0u8; 32]?;
    let best = best(runs, || one_sealing(rt, suite, &text, &mut siv, &mut out))?;
    Ok(u128::from(bytes) * 1_000_000_000 / best.max(1))
}

// The best of some runs, in bytes per second.
fn measure<S: Stream>(rt: &HostRuntime, stream: &S, runs: u32) -> anyhow::Result<u128> {
    let mut buf = vec![in rt.alloc(); 0u8; BYTES]?;
    let best = best(runs, || one_run(rt, stream, &mut buf))?;
    Ok(1_048_576_000_000_000 / best.max(1))
}

fn chacha(rounds: u8) -> anyhow::Result<ChaCha> {
    ChaCha::new(rounds).map_err(|_| anyhow!("ChaCha has not that round count"))
}

fn run(rt: &HostRuntime) -> anyhow::Result<()> {
    let runs = match env::args(rt)?.nth(1) {
        Some(text) => text.as_str().parse::<u32>()?,
        None => 1,
    };
    for rounds in [8u8, 12, 20] {
        let speed = measure(rt, &chacha(rounds)?, runs)?;
        println!(rt; "chacha{rounds}: {BYTES} bytes")?;
        eprintln!(rt; "stream chacha{rounds} {BYTES} {speed}")?;
    }
    for suite in [1u32, 2, 3, 4] {
        for bytes in [16_384u32, 65_536] {
            let speed = measure_sealing(rt, suite, bytes, runs)?;
            println!(rt; "seal suite {suite}: {bytes} bytes")?;
            eprintln!(rt; "seal {suite} {bytes} {speed}")?;
        }
    }
    Ok(())
}

fn main(rt: HostRuntime) -> anyhow::Result<()> {
    run(&rt)
}
