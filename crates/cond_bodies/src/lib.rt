//! What macros give in all configurations: tokens under conditions, what names stand for, and the bodies of a name's definitions
//! as one list (ISO/IEC 9899:2011, 6.10.3).
#![tactic(auto)]

mod bodies;
mod item;
mod items;
mod levels;
mod lookups;
mod meanings;
mod part;
mod slot;

pub use bodies::joined_body;
pub use item::{Item, Site};
pub use items::{push, push_brought, tokens_of};
pub use levels::{Level, inner, is_active, may, when_left_open, when_opens};
pub use lookups::meanings_of;
pub use meanings::{Function, Meanings, when_some};
