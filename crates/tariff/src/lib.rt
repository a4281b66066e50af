// Tariffs: the numbers that make one, the rounding of a quotient, and what a tariff charges for an amount.
#![tactic(auto)]

mod charge;
mod codes;
mod terms;

pub use charge::{Amounts, Charge};
pub use codes::{Measure, OutOfRange, Rounding};
pub use terms::{Tariff, Terms};
