// Lines of a tariff book: the classes that a line covers, the table of all line numbers, and what no line claims.
#![tactic(auto)]

mod sets;
mod states;
mod table;

pub use sets::{ClassSet, Counts};
pub use states::{Line, LineState};
pub use table::LineTable;
