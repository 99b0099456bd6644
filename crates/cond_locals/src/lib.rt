//! The declarations of locals, in all configurations at once (ISO/IEC 9899:2011, 6.7): what a declaration among statements declares in the innermost
//! block, and where it is refused. A declarator is read as the whole trees that it stands for, its initialiser entry by entry.
#![tactic(auto)]

mod declarations;
mod declarators;
mod lists;
mod objects;
mod types;

pub use declarations::LocalDeclarations;
pub use declarators::declare_local;
