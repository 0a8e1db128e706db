//! Sample lines: the column that a reader has to answer, and the bytes to read.
//!
//! Each line of the input is a sample: the column, 0 for a line of the reader's
//! set, and then the bytes in hexadecimal, as words that are joined. A word
//! `8*2031` stands for 2031 eight times.

#![tactic(auto)]

ghost use Rattle.std.specs.Prelude.{◌≡◌, ℕ, ◌≤◌, List, ◌++◌, IfOk};
ghost use Rattle.columns.specs.Answer.{Answers};
ghost use Rattle.columns.specs.Spelling.{Spells, SpellsField};

use anyhow::{Context, anyhow};
use sealed::read_hex;
use std::alloc::Global;

// A reader of whole lines, by the columns that it answers. A trait, since a
// closure would ask callers for more.
pub trait Reader {
    // the lines that it looks for
    ghost lines: { List ℕ → Type 0 };

    // The column of the fault in a line, 0 where there is none.
    fn column(&self, line: &[u8]) -> usize
        ensures { Answers lines line.now result };
}

#[derive(Drop)]
struct Sample {
    column: usize,
    bytes: Vec<u8>,
}

// Appends the bytes that a text spells in hexadecimal, with small letters. They
// are read where they stay, so that a long text is not held twice.
fn append(bytes: &mut Vec<u8>, text: &str) -> anyhow::Result<()>
    ensures { IfOk result (λ _. (added : List ℕ) × Spells text.now added × (bytes.new.items ≡ bytes.old.items ++ added)) }
{
    let (pairs, odd) = text.as_bytes().split_at(text.len() / 2 * 2);
    let at = bytes.len();
    bytes.resize(at + pairs.len() / 2, 0)?;
    read_hex(pairs, &mut bytes[at..]).context("no hexadecimal digit")?;
    if !odd.is_empty() {
        return Err(anyhow!("an odd number of digits"));
    }
    Ok(())
}

// The bytes that a text spells.
fn decode(heap: Global, text: &str) -> anyhow::Result<Vec<u8>>
    ensures { IfOk result (λ bytes. Spells text.now bytes.items) }
{
    let mut bytes = Vec::new(heap);
    append(&mut bytes, text)?;
    Ok(bytes)
}

// The same, with `-` for no bytes.
pub fn decode_field(heap: Global, text: &str) -> anyhow::Result<Vec<u8>>
    ensures { IfOk result (λ bytes. SpellsField text.now bytes.items) }
{
    match text {
        "-" => Ok(Vec::new(heap)),
        digits => decode(heap, digits),
    }
}

// Appends what one word of a sample stands for. Digits that repeat are read
// once, and not at all at a count of 0.
fn append_word(bytes: &mut Vec<u8>, word: &str) -> anyhow::Result<()> {
    let Some((count, digits)) = word.split_once('*') else {
        return append(bytes, word);
    };
    let count = count.parse::<usize>()?;
    let start = bytes.len();
    if count > 0 {
        append(bytes, digits)?;
    }
    let end = bytes.len();
    if start < end {
        for _ in 1..count {
            bytes.extend_from_within(start..end)?;
        }
    }
    Ok(())
}

fn parse_sample(heap: Global, text: &str) -> anyhow::Result<Sample> {
    let mut words = text.split_whitespace();
    let column = words.next().context("no column")?.parse::<usize>()?;
    let mut bytes = Vec::new(heap);
    for word in words {
        append_word(&mut bytes, word)?;
    }
    Ok(Sample { column, bytes })
}

// How many samples there were, and how many of them agree.
#[derive(Clone, Copy, PartialEq, Eq, Debug)]
pub struct Tally {
    pub agree: u64,
    pub all: u64,
}

impl Tally {
    // The tally with one sample more. Past the largest number both stand still.
    fn with(self, agrees: bool) -> Tally
        requires { self.agree ≤ self.all }
        ensures { result.agree ≤ result.all }
    {
        let all = self.all.saturating_add(1);
        let agree = self.agree.saturating_add(u64::from(agrees));
        Tally { agree, all }
    }
}

// Runs a reader over the samples of the input, prints what it answers and says
// how many agree.
pub fn run<R: Reader>(rt: &(impl Input + Print + AllocGlobal), reader: &R) -> anyhow::Result<Tally>
    ensures { IfOk result (λ t. t.agree ≤ t.all) }
{
    let mut tally = Tally { agree: 0, all: 0 };
    for line in rt.lines(rt.alloc()) {
        let sample = parse_sample(rt.alloc(), line?.as_str())?;
        let column = reader.column(&sample.bytes);
        println!(rt; "{column}")?;
        tally = tally.with(column == sample.column);
    }
    println!(rt; "{} of {} agree", tally.agree, tally.all)?;
    Ok(tally)
}

#[cfg(test)]
mod tests {
    use super::*;

    #[test]
    fn spelled(rt: HostRuntime) -> anyhow::Result<()> {
        assert_eq!(rt;
            decode(rt.alloc(), "28ff0a")?.as_slice(),
            &[40, 255, 10][..]
        );
        assert_eq!(rt; decode_field(rt.alloc(), "-")?.len(), 0);
        assert_eq!(rt; decode_field(rt.alloc(), "7f")?.as_slice(), &[127][..]);
        assert!(rt; decode(rt.alloc(), "0").is_err());
        assert!(rt; decode(rt.alloc(), "0G").is_err());
        assert!(rt; decode(rt.alloc(), "-").is_err());
        Ok(())
    }

    #[test]
    fn repeated(rt: HostRuntime) -> anyhow::Result<()> {
        let sample = parse_sample(rt.alloc(), "13 28 3*2031 0a")?;
        assert_eq!(rt; sample.column, 13);
        assert_eq!(rt; sample.bytes.as_slice(), &b"( 1 1 1\n"[..]);
        Ok(())
    }
}
