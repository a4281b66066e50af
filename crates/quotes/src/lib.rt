// Quotes: what a trip would cost by a list of rates, and the line that says so.
#![tactic(auto)]

mod prices;
mod text;

pub use prices::{PriceList, Quote, Rate, quote_trip};
pub use text::quote_line;
