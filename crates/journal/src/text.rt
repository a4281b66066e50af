// The lines that tell the answers.
ghost use Rattle.std.specs.Prelude.{◌≡◌, IfOk, Some, string_bytes};
ghost use Rattle.journal.specs.Asked.{told, told_value};
ghost use Rattle.journal.specs.Text.{line_text, told_text, script_refused_text};

use crate::call::{Accepted, Answer};
use std::alloc::{AllocError, Global};
use std::fmt;

// "done", "version 2", "line 1 tariff 1 fee 100 vat 19" or "wrote 146 bytes"
impl fmt::Display for Accepted {
    ghost output = { λ x. Some (told_text (told_value x)) };

    fn fmt<W: fmt::Write>(&self, f: &mut fmt::Formatter<W>) -> fmt::Result {
        match self {
            Accepted::Done => write!(f, "done"),
            Accepted::Version(version) => write!(f, "version {version}"),
            Accepted::Price(price) => write!(f, "{price}"),
            Accepted::Wrote(bytes) => {
                let length = bytes.len();
                write!(f, "wrote {length} bytes")
            }
        }
    }
}

// The line of the call with this number, as "1 done", "13 version 2" or "9 refused 11 by 4".
pub fn answer_line(heap: Global, number: usize, answer: &Answer) -> Result<String, AllocError>
    ensures { IfOk result (λ s. string_bytes s ≡ line_text number (told answer.now)) }
{
    match answer {
        Ok(accepted) => format!(in heap; "{number} {accepted}"),
        Err(refusal) => format!(in heap; "{number} refused {refusal}"),
    }
}

// The line of a script that cannot be read: "script refused at line 4".
pub fn refused_line(heap: Global, line: usize) -> Result<String, AllocError>
    ensures { IfOk result (λ s. string_bytes s ≡ script_refused_text line) }
{
    format!(in heap; "script refused at line {line}")
}
