// The plain contents of a tariff book, and the calls on them by value. Contents have no invariant; a book adds it.
#![tactic(auto)]

mod contents;
mod edits;
mod refusal;

pub use contents::{Contents, Phase};
pub use refusal::Refusal;
