//! Runs the reader of sealed lines over samples and says how many agree. The
//! crate `columns` says how a sample is written.

#![tactic(auto)]

ghost use Rattle.sealed.specs.Line.{SealedLine};

use columns::{Reader, run};
use refusal::Refusal;
use sealed::Unchecked;

// the reader of sealed lines
struct SealedLines;

impl Reader for SealedLines {
    ghost lines = { SealedLine };

    fn column(&self, line: &[u8]) -> usize {
        match Unchecked::read(line) {
            Err(Refusal::NoSealedLine { column }) => column,
            _ => 0,
        }
    }
}

fn main(rt: HostRuntime) -> anyhow::Result<()> {
    run(&rt, &SealedLines)?;
    Ok(())
}
