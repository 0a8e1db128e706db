//! Runs the reader of lines over samples and says how many agree. The crate
//! `columns` says how a sample is written.

#![tactic(auto)]

ghost use Rattle.shape.specs.Form.{WellShaped};

use columns::{Reader, run};

// the reader of lines
struct Lines;

impl Reader for Lines {
    ghost lines = { WellShaped };

    fn column(&self, line: &[u8]) -> usize {
        shape::read(line).err().unwrap_or(0)
    }
}

fn main(rt: HostRuntime) -> anyhow::Result<()> {
    run(&rt, &Lines)?;
    Ok(())
}
