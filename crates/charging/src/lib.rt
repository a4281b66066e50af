// What the plain contents of a book charge for a usage.
#![tactic(auto)]

mod pricing;

pub use pricing::{HIGHEST_AMOUNT, Price, amounts_of, price_of, priced_classes};
