// Gaps: the first combination of classes that no live line claims.
#![tactic(auto)]

mod search;

pub use search::first_gap;
