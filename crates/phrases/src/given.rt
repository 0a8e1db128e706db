//! The lines that name a key and the last serial used.

ghost use Rattle.std.specs.Prelude.{ℕ, List, MatchOption};
ghost use Rattle.std.specs.Option.{option_map};
ghost use Rattle.book.specs.Keys.{bytes_of};
ghost use Rattle.phrases.specs.Given.{Between, KeyLine, LastLine};

use book::{Key, LONGEST_KEY};
use sealed::{read_hex, read_number};

// A slot and the key that goes there.
#[derive(Clone, Copy)]
pub struct SlotKey {
    pub slot: u8,
    pub key: Key,
}

// What stands in a line between a front and an end; nothing exactly where it
// has not both.
fn between<'a>(line: &'a [u8], front: &[u8], end: &[u8]) -> Option<&'a [u8]>
    ensures { Between line.now front.now end.now (option_map (λ x. x.now) result) }
{
    line.strip_prefix(front)?.strip_suffix(end)
}

// Reads the line `(key S H)`, a slot and 1 to 32 bytes in hexadecimal, with its
// line end; nothing exactly where the line is no such line.
#[tactic(auto, using(crate::proofs::Inner::inner_facts))]
pub fn read_key_line(line: &[u8]) -> Option<SlotKey>
    ensures { MatchOption result ((slot : ℕ) (key : List ℕ) → KeyLine line.now slot key → ⊥) (λ k. KeyLine line.now k.slot (bytes_of k.key)) }
{
    let inner = between(line, b"(key ", b")\n")?;
    let [digit @ b'0'..=b'7', b' ', hex @ ..] = inner else {
        return None;
    };
    let mut bytes = [0; LONGEST_KEY];
    let len = read_hex(hex, &mut bytes)?;
    let key = Key::new(&bytes[..len])?;
    Some(SlotKey {
        slot: digit - b'0',
        key,
    })
}

// Reads the line `(last N)`, the last serial used, with its line end; nothing
// exactly where the line is no such line.
pub fn read_last_line(line: &[u8]) -> Option<u32>
    ensures { MatchOption result ((serial : ℕ) → LastLine line.now serial → ⊥) (λ n. LastLine line.now n) }
{
    read_number(between(line, b"(last ", b")\n")?)
}
