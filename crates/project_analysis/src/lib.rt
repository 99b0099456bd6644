//! What is known of a project in all configurations that it admits: the occurrences of its units, and the ties between the tokens of its files
//! (ISO/IEC 9899:2011, 6.2.1 to 6.2.3, 6.2.7).
#![tactic(auto)]

mod analysis;

pub use analysis::{Analysis, ToldProject, ToldUnits, analysed, told_of};
