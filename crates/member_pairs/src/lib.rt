//! The uses of members in pairs with what declares the members, in all configurations (ISO/IEC 9899:2011, 6.5.2.3).
#![tactic(auto)]

mod pairs;

pub use pairs::member_pairs;
