// Runs of calls: a call and an answer as values, the replay of calls on a new book, and the lines that tell the answers.
#![tactic(auto)]

mod call;
mod runs;
mod text;

pub use call::{Accepted, Answer, Call};
pub use runs::replay;
pub use text::{answer_line, refused_line};
