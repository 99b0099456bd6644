//! Formulas without the parts that no configuration makes true which an oracle admits.
#![tactic(auto)]

mod parts;

pub use parts::without_refuted;
