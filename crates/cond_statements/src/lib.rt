//! The statements of functions, read in all configurations at once (ISO/IEC 9899:2011, 6.8).
#![tactic(auto)]

mod blocks;
mod bodies;
mod declarations;
mod expressions;
mod results;
mod roles;
mod statements;
mod uses;
mod walks;

pub use bodies::read_body;
pub use declarations::Declarations;
pub use roles::{Role, role_of};
