// The line that says what a trip costs.
ghost use Rattle.std.specs.Prelude.{◌≡◌, IfOk, Some, string_bytes};
ghost use Rattle.classes.specs.Outcomes.{outcome};
ghost use Rattle.quotes.specs.Text.{quote_text, line_text};

use crate::prices::Quote;
use classes::Refusal;
use std::alloc::{AllocError, Global};
use std::fmt;

// "classes 2 1 1 2 fee 506 vat 96"
impl fmt::Display for Quote {
    ghost output = { λ q. Some (quote_text q) };

    fn fmt<W: fmt::Write>(&self, f: &mut fmt::Formatter<W>) -> fmt::Result {
        let Quote { classes, charge } = *self;
        write!(f, "classes {classes} {charge}")
    }
}

// What it shares with the line of an answer, in another crate, is one `format!`.
// The line of the trip with this number: "3 classes 2 1 1 2 fee 506 vat 96", or "4 refused 16 by 2".
pub fn quote_line(
    heap: Global,
    number: usize,
    answer: Result<Quote, Refusal>,
) -> Result<String, AllocError>
    ensures { IfOk result (λ s. string_bytes s ≡ line_text number (outcome answer)) }
{
    match answer {
        Ok(quote) => format!(in heap; "{number} {quote}"),
        Err(refusal) => format!(in heap; "{number} refused {refusal}"),
    }
}
