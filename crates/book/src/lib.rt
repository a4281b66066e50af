// The tariff book: tariffs and lines, edited, issued and priced by calls that no order can break.
#![tactic(auto)]

mod book;
mod calls;
mod pricing;
mod sheets;

pub use book::Book;
