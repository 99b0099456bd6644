//! What commands are, and what a caller may rely on: a command's call says something or stops, and then its files are written
//! and its report is given. No command is known here.
#![tactic(auto)]

mod ending;
mod give;
mod said;
mod write;

pub use ending::finish;
pub use said::{Said, Stop, usage};
