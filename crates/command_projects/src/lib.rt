//! What the commands on a project share: its name and those of features, a configuration by names, the reading of the project
//! and its files, and the report of a fault.
#![tactic(auto)]

mod faults;
mod names;
mod naming;
mod products;
mod words;

pub use faults::without_project;
pub use names::{are_lawful, has_repetition, is_project_name, names_in};
pub use naming::{listed, names_on};
pub use products::{are_features, configuration};
pub use words::asked_project;
