//! The text of a list of items: the lines of the items, joined.

ghost use Rattle.std.specs.Prelude.{◌≡◌, ℕ, ◌<◌, ◌≤◌, true, false, List, ◌++◌, length, drop, MatchOption};
ghost use Rattle.kinds.specs.Text.{AllLawful, Checks, ColumnOf, Fills, Measures, OneAnswer, Reads, ReadsItsText, SameText, WritesText, lines, text_of};
ghost use Rattle.std.specs.Iterator.{YieldsFirstRef, item_count};

use crate::kind::{Kind, LONGEST_LINE};
use refusal::Refusal;

// items of a sheet
pub const MOST_ITEMS: usize = 1_024;
// bytes of a sheet's text
pub const MOST_BYTES: usize = 16_384;

// The lines of a text, each up to and with its line end; the last piece may
// lack its own. A type with no closure in it, since a generic function's loop
// over an iterator with one is not proved yet.
#[derive(Drop)]
struct Lines<'a> {
    rest: &'a [u8],
}

impl<'a> Iterator for Lines<'a> {
    type Item = &'a [u8];

    ghost next_gives = { YieldsFirstRef (λ s. lines s.rest.now) };

    ghost remaining = { item_count (λ s. lines s.rest.now) };

    fn next(&mut self) -> Option<&'a [u8]> {
        let line = self.rest.split_inclusive(|b| *b == b'\n').next()?;
        self.rest = &self.rest[line.len()..];
        Some(line)
    }
}

// The length of the text of a list that makes a sheet. The first unlawful item
// is refused, wherever it stands, then a list with too many items or bytes.
pub fn measure<K: Kind>(items: &[K::Item]) -> Result<usize, Refusal>
    ensures { Measures K.Kind.lawful K.Kind.line items.now result }
{
    let mut total = 0;
    for (index, item) in items.iter().enumerate() {
        let len = line_len::<K>(item).ok_or(Refusal::UnlawfulItem { index })?;
        // Past the limit the sum stops, so that it cannot overflow.
        if total <= MOST_BYTES {
            total += len;
        }
    }
    if items.len() > MOST_ITEMS || total > MOST_BYTES {
        return Err(Refusal::LargeSheet);
    }
    Ok(total)
}

// Writes the text of a list that makes a sheet to the front of `out`, and
// answers its length. The order of refusals: those of `measure`, then a buffer
// that is shorter than the text.
pub fn write_text<K: Kind>(items: &[K::Item], out: &mut [u8]) -> Result<usize, Refusal>
    ensures answer { WritesText K.Kind.lawful K.Kind.line items.now out.old out.new result }
    ensures same { SameText K.Kind.lawful K.Kind.line }
{
    let len = measure::<K>(items)?;
    if out.len() < len {
        return Err(Refusal::ShortOutput);
    }
    // By a place: the rest of a buffer could only be kept by taking it out of its variable.
    let mut at = 0;
    for item in items {
        let n = K::write(item, &mut out[at..])?;
        at += n;
    }
    Ok(len)
}

// Whether a text is a sheet: how many items it is read as, or the first faulty
// line, from 1, and its column: by the column rule, or 0 for a well-shaped line
// that no item has. As many good lines as a sheet may have, and any byte after
// them, are a fault of the line that follows, at column 0.
pub fn check<K: Kind>(text: &[u8]) -> Result<usize, Refusal>
    ensures answer { Checks K.Kind.reading text.now result }
    ensures one { OneAnswer K.Kind.reading }
    ensures inverse { ReadsItsText K.Kind.lawful K.Kind.line K.Kind.reading }
{
    let mut lines = Lines { rest: text };
    for count in 0..MOST_ITEMS {
        let Some(line) = lines.next() else {
            return Ok(count);
        };
        if K::read(line).is_none() {
            return Err(Refusal::NoSheet {
                line: count + 1,
                column: fault_column(line),
            });
        }
    }
    // Past the limit any byte is a fault, and no line end is looked for.
    if lines.rest.is_empty() {
        return Ok(MOST_ITEMS);
    }
    Err(Refusal::NoSheet {
        line: MOST_ITEMS + 1,
        column: 0,
    })
}

// Puts the items of a text into the places, from the first, and answers how
// many they are. The order of refusals: those of `check`, then too few places.
pub fn fill<K: Kind>(text: &[u8], items: &mut [K::Item]) -> Result<usize, Refusal>
    ensures { Fills K.Kind.reading text.now items.old items.new result }
{
    let count = check::<K>(text)?;
    if items.len() < count {
        return Err(Refusal::SmallTray);
    }
    fill_places::<K>(text, items);
    Ok(count)
}

// Puts the items of a text without a fault into places that suffice.
fn fill_places<K: Kind>(text: &[u8], items: &mut [K::Item])
    requires { (xs : List K.Item) × Reads K.Kind.reading text.now xs × (length xs ≤ length items.old) }
    ensures { (xs : List K.Item) → Reads K.Kind.reading text.now xs → items.new ≡ xs ++ drop (length xs) items.old }
{
    // written by place: after a `zip` with `iter_mut` no item would be known
    for (place, line) in (Lines { rest: text }).enumerate() {
        let Some(item) = K::read(line) else {
            return;
        };
        items[place] = item;
    }
}

// The length of an item's line, if it is lawful.
fn line_len<K: Kind>(item: &K::Item) -> Option<usize>
    ensures { MatchOption result (K.Kind.lawful item.now ≡ false) (λ n. (K.Kind.lawful item.now ≡ true) × (n ≡ length (K.Kind.line item.now)) × (n ≤ 255)) }
{
    let mut line = [0; LONGEST_LINE];
    K::write(item, &mut line).ok()
}

// The column of the fault in a line that no item has: 0 for a well-shaped line.
fn fault_column(line: &[u8]) -> usize
    ensures { ColumnOf line.now result }
{
    shape::read(line).err().unwrap_or(0)
}
