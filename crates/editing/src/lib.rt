// What an editor runs: the steps of a script as calls of a new book, and the answers to them.
#![tactic(auto)]

mod calls;

pub use calls::answers;
