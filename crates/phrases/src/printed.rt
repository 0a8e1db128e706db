//! What is printed of a refusal and of a sheet that was opened.

ghost use Rattle.std.specs.Prelude.{◌≡◌, IfOk, Some, string_bytes};
ghost use Rattle.phrases.specs.Printed.{opened_line, refused_line, values};

use refusal::Refusal;
use std::alloc::{AllocError, Global};
use std::fmt;

// The values of a refusal, each as a form of its own.
#[derive(Drop)]
struct Values(Refusal);

impl fmt::Display for Values {
    ghost output = { λ v. Some (values v.0) };

    fn fmt<W: fmt::Write>(&self, f: &mut fmt::Formatter<W>) -> fmt::Result {
        match self.0 {
            Refusal::UnlawfulItem { index } => write!(f, " (index {index})"),
            Refusal::NoSealedLine { column } => write!(f, " (column {column})"),
            Refusal::NoSheet { line, column } => write!(f, " (line {line}) (column {column})"),
            _ => Ok(()),
        }
    }
}

// The line of a refusal: its number and its values.
pub fn refusal_line(heap: Global, why: Refusal) -> Result<String, AllocError>
    ensures { IfOk result (λ s. string_bytes s ≡ refused_line why) }
{
    let number = why.number();
    let values = Values(why);
    format!(in heap; "(refused {number}{values})\n")
}

// The line before the items of a sheet that was opened.
pub fn opened_line(heap: Global, count: usize) -> Result<String, AllocError>
    ensures { IfOk result (λ s. string_bytes s ≡ opened_line count) }
{
    format!(in heap; "(opened {count})\n")
}
