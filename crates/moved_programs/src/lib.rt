//! Where tokens stand in files is nothing to core programs (ISO/IEC 9899:2011, 5.1.1.2, 6.9): units whose tokens are put elsewhere have the
//! same core program, or the same fault. Here are the definitions (in `specs/`) and the law, the contract of a function without a body.
#![tactic(auto)]

mod laws;

pub use laws::places_dont_matter;
