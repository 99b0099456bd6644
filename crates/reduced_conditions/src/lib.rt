//! Connectives that leave out what a part of a condition says already, so that conditions that are combined again and again
//! stay small.
#![tactic(auto)]

mod conjunctions;
mod connectives;
mod known;
mod literals;
mod parts;
mod same;

pub use connectives::{both, both_of, either, either_of, without};
pub use known::outside;
pub use literals::Literals;
pub use parts::is_implied;
pub use same::{is_always, is_never, is_same};
