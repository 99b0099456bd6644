//! Values, lists and judgements under presence conditions. Each operation has one law, which says what is seen of its result
//! in a configuration; a stage that looks at all configurations at once is a composition of these.
#![tactic(auto)]

mod condensing;
mod crossing;
mod entries;
mod judging;
mod lists;
mod outcomes;
mod plain;
mod tokens;
mod values;

pub use crossing::crossed;
pub use entries::{Guarded, when_some_hold};
pub use judging::judged;
pub use lists::CondList;
pub use outcomes::Outcomes;
pub use plain::{Function, Judgement, Operator, Plain};
pub use values::CondValue;
