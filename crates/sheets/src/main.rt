//! Reads sample lines and texts of the kinds and says how many agree.
//!
//! Each line of the input is a sample: `line` or `text`, the kind, the bytes in
//! hexadecimal (`-` for none), and what they must be read as: items by their
//! words and numbers, or where the fault is.

#![tactic(auto)]

use anyhow::anyhow;
use columns::decode_field;
use items::{Job, JobItem, Setting, SettingItem};
use kinds::{Kind, MOST_ITEMS, Tray};
use refusal::Refusal;
use std::alloc::{AllocError, Global};

// A kind whose items can be shown by their words and numbers. No `Display`, since
// the items are another crate's: it would need a wrapper beside this trait.
trait Shown: Kind {
    // some item, for places that are not filled yet
    fn blank() -> Self::Item;

    fn words(heap: Global, item: &Self::Item) -> Result<String, AllocError>;
}

impl Shown for Job {
    fn blank() -> JobItem {
        JobItem::End
    }

    fn words(heap: Global, item: &JobItem) -> Result<String, AllocError> {
        match *item {
            JobItem::Panel { number, cloth } => format!(in heap; "panel {number} {cloth}"),
            JobItem::Move(to) => format!(in heap; "move {} {}", to.x, to.y),
            JobItem::Cut(to) => format!(in heap; "cut {} {}", to.x, to.y),
            JobItem::Mark(to) => format!(in heap; "mark {} {}", to.x, to.y),
            JobItem::Arc { via, to } => {
                format!(in heap; "arc {} {} {} {}", via.x, via.y, to.x, to.y)
            }
            JobItem::End => format!(in heap; "end"),
        }
    }
}

impl Shown for Setting {
    fn blank() -> SettingItem {
        SettingItem::Press(0)
    }

    fn words(heap: Global, item: &SettingItem) -> Result<String, AllocError> {
        match *item {
            SettingItem::Speed(value) => format!(in heap; "speed {value}"),
            SettingItem::Press(value) => format!(in heap; "press {value}"),
            SettingItem::Tool { number, offset } => format!(in heap; "tool {number} {offset}"),
        }
    }
}

// What a line is read as: an item, or the column of its fault.
fn read_line<K: Shown>(heap: Global, line: &[u8]) -> anyhow::Result<String> {
    if let Some(item) = K::read(line) {
        return Ok(K::words(heap, &item)?);
    }
    let column = shape::read(line).err().unwrap_or(0);
    Ok(format!(in heap; "column {column}")?)
}

// What a text is read as: its items, or the line and the column of its fault.
fn read_text<K: Shown>(heap: Global, text: &[u8]) -> anyhow::Result<String> {
    let mut places = vec![in heap; K::blank(); MOST_ITEMS]?;
    let mut tray = Tray::new(places.as_mut_slice());
    match kinds::load::<K>(text, &mut tray) {
        Ok(count) => {
            let mut answer = format!(in heap; "{count} items")?;
            for item in tray.as_slice() {
                let words = K::words(heap, item)?;
                answer.push_str("; ")?;
                answer.push_str(words.as_str())?;
            }
            Ok(answer)
        }
        Err(Refusal::NoSheet { line, column }) => {
            Ok(format!(in heap; "line {line} column {column}")?)
        }
        Err(_) => Err(anyhow!("a refusal that no text gives")),
    }
}

fn answer(heap: Global, what: &str, kind: &str, bytes: &[u8]) -> anyhow::Result<String> {
    match (what, kind) {
        ("line", "1") => read_line::<Job>(heap, bytes),
        ("line", "2") => read_line::<Setting>(heap, bytes),
        ("text", "1") => read_text::<Job>(heap, bytes),
        ("text", "2") => read_text::<Setting>(heap, bytes),
        _ => Err(anyhow!("neither a line nor a text of a kind")),
    }
}

// Whether a sample is read as it says.
fn agrees(heap: Global, sample: &str) -> anyhow::Result<bool> {
    let (what, rest) = sample.split_once(' ').ok_or_else(|| anyhow!("no sample"))?;
    let (kind, rest) = rest.split_once(' ').ok_or_else(|| anyhow!("no kind"))?;
    let (digits, expected) = rest.split_once(' ').ok_or_else(|| anyhow!("no bytes"))?;
    let bytes = decode_field(heap, digits)?;
    let found = answer(heap, what, kind, bytes.as_slice())?;
    Ok(found.as_str() == expected)
}

fn run(rt: &HostRuntime) -> anyhow::Result<()> {
    let mut agree = 0u64;
    let mut all = 0u64;
    for sample in rt.lines(rt.alloc()) {
        let sample = sample?;
        all = all.wrapping_add(1);
        if agrees(rt.alloc(), sample.as_str())? {
            agree = agree.wrapping_add(1);
        } else {
            println!(rt; "otherwise: {sample}")?;
        }
    }
    println!(rt; "{agree} of {all} agree")?;
    Ok(())
}

fn main(rt: HostRuntime) -> anyhow::Result<()> {
    run(&rt)
}
