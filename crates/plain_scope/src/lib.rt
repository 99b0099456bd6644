//! What is visible at a place of a unit, the types of what is named there, and why a unit is refused (ISO/IEC 9899:2011, 6.2.1
//! to 6.2.3, 6.3).
#![tactic(auto)]

mod blocks;
mod entities;
mod errors;
mod parts;
mod typing;

pub use entities::{FileName, Local, Numbers, Scope, Signature, Sort, Struct, Used, copied};
pub use errors::{ElabError, refused, unless};
pub use parts::{arithmetic_words, first_token, has_terminal, is_word, leaf, parts_of, token_of};
pub use typing::{
    common, common_type, integer_type, is_any_pointer, is_array, is_integer, is_movable,
    is_pointer, is_scalar, is_struct, is_void, may_be_assigned, promoted, promoted_type, same_type,
    type_of,
};
