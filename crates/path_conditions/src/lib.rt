//! Paths: lists of conditions that hold where one stands in alternatives within alternatives, and what a path says of further
//! conditions.
#![tactic(auto)]

mod left;
mod paths;
mod presences;
mod said;

pub use left::{conjoined, left_of};
pub use paths::{copied, exclude, with, without};
pub use presences::{Presence, presence_on};
pub use said::{follows, is_excluded};
