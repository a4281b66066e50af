// Usages and their classes: what was driven, the determinants that class it, and the four classes of a usage.
#![tactic(auto)]

mod determinant;
mod entries;
mod keys;
mod refusal;
mod spans;
mod times;
mod usage;
mod vehicles;
mod whole;

pub use determinant::{Determinant, Determinants};
pub use entries::{Entry, Listed, first_match};
pub use keys::{ContractKey, Key, ObjectKey, UsageKey};
pub use refusal::{Classes, Refusal, Role};
pub use spans::{Locations, Span, Users, in_order};
pub use times::{Period, Times};
pub use usage::{Instant, Usage};
pub use vehicles::{Band, Rule, Vehicles};
pub use whole::Whole;
