// The libraries as their users meet them: a determinant of one's own, and the edges of the rules as tests.
#![tactic(auto)]

mod axles;
mod books;
mod classing;
mod fees;

pub use axles::ByAxles;
