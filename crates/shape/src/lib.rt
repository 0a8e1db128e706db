//! Lines: which bytes are one well-shaped line, and where a fault stands.
//!
//! A line is a form and a line end. A form is `(`, a word of small letters,
//! arguments with one space before each, `)`. An argument is a number or
//! again a form. `docs/LINES.md` has the grammar and the column rule. Where
//! reading fails, the error is a place in the line: a number, since there is
//! only one kind of fault.

#![tactic(auto)]

mod scan;
mod value;

ghost use Rattle.std.specs.Prelude.{◌<◌};
ghost use Rattle.shape.specs.Column.{OneColumn, Verdict};
ghost use Rattle.shape.specs.Form.{Forms, Tails, Unique, WellShaped};
ghost use Rattle.shape.specs.Outcome.{Outcome};

pub use scan::literal;
use scan::{letters, number};
pub use value::{
    LARGEST, Leading, figure_count, leading_number, number_len, read_number, write_figures,
    write_number,
};

// letters of a word
pub const MOST_LETTERS: usize = 8;
// digits of a number, its sign not counted
pub const MOST_DIGITS: usize = 6;
// forms one inside the other, the outer one counted
pub const DEEPEST: u8 = 4;

// Reads a whole line. `Err` has the column of the fault, from 1: one more than
// the length of the longest front part that some well-shaped line begins with.
pub fn read(line: &[u8]) -> Result<(), usize>
    ensures verdict { Verdict WellShaped line.now result }
    ensures unique { (Unique) × (OneColumn WellShaped) }
{
    let n = form(line, DEEPEST).map_err(|n| n + 1)?;
    match &line[n..] {
        [b'\n'] => Ok(()),
        [b'\n', ..] => Err(n + 2),
        _ => Err(n + 1),
    }
}

// Reads the form at the front of `s`, nested at most `depth` deep. `Ok` has its
// length, `Err` the length of the longest front part that can begin one.
#[cycle(arguments_form)]
fn form(s: &[u8], depth: u8) -> Result<usize, usize>
    requires { 0 < depth }
    ensures { Outcome (Forms depth) s.now result }
{
    let [b'(', rest @ ..] = s else {
        return Err(0);
    };
    let word = letters(rest);
    if word == 0 {
        return Err(1);
    }
    let start = 1 + word;
    let n = arguments(&s[start..], depth - 1).map_err(|n| start + n)?;
    Ok(start + n)
}

// Reads arguments up to the bracket that closes their form; a form among them
// is nested at most `depth` deep. Answers as `form` does.
#[cycle(arguments_form)]
fn arguments(s: &[u8], depth: u8) -> Result<usize, usize>
    ensures { Outcome (Tails depth) s.now result }
{
    let mut at = 0;
    loop {
        let rest = match &s[at..] {
            [b')', ..] => return Ok(at + 1),
            [b' ', rest @ ..] => rest,
            _ => return Err(at),
        };
        let next = at + 1;
        // Each arm goes its own way: with one `?` after them all, lines of forms take half as long again.
        at = match number(rest) {
            Ok(n) => next + n,
            Err(n) if n > 0 || depth == 0 => return Err(next + n),
            Err(_) => next + form(rest, depth).map_err(|n| next + n)?,
        };
    }
}
