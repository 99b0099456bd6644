//! The tree of a unit's tokens.

ghost use Rattle.std.specs.Prelude.{◌≡◌, ◌≢◌, ◌↔◌, ℕ, ◌<◌, length, map, IsOkAnd};
ghost use Rattle.c_text.specs.Token.{plain_token};
ghost use Rattle.c_tree.specs.Trees.{PlainTree, plain_tree};
ghost use Rattle.c_tree.specs.Units.{IsTreeOf, IsUnexpected, IsTooHigh};

use crate::readings::{Reading, read};
use c_text::Token;
use c_tree::{
    Tree, tokens_spell_one_unit, what_begins_a_unit_can_be_read, what_can_be_read_begins_a_unit,
    what_is_read_is_spelt, what_is_spelt_is_read,
};
use std::alloc::Global;

/// Why some tokens have no tree.
#[derive(Clone, Copy, Debug, PartialEq, Eq)]
pub enum ParseError {
    /// Some unit begins with so many of the tokens, none with one more; or the tokens end there before a unit does.
    Unexpected(u32),
    /// They are those of a unit, but its tree is more than 512 high.
    TooHigh,
    /// Want of memory.
    Memory,
}

/// The tree of the tokens of a unit.
pub fn parse(alloc: Global, tokens: &[Token]) -> Result<Tree, ParseError>
    requires { length tokens.now < 4294967295 }
    ensures tree { result ≢ Err ParseError.Memory → (tree : PlainTree) →
        IsTreeOf (map plain_token tokens.now) tree ↔ IsOkAnd result (λ t. plain_tree t ≡ tree) }
    ensures unexpected { result ≢ Err ParseError.Memory → (i : ℕ) →
        IsUnexpected (map plain_token tokens.now) i ↔ (result ≡ Err (ParseError.Unexpected i)) }
    ensures too_high { result ≢ Err ParseError.Memory →
        IsTooHigh (map plain_token tokens.now) ↔ (result ≡ Err ParseError.TooHigh) }
{
    what_is_read_is_spelt();
    tokens_spell_one_unit();
    what_is_spelt_is_read();
    what_can_be_read_begins_a_unit();
    what_begins_a_unit_can_be_read();
    match read(alloc, tokens) {
        Ok(Reading::Whole(Some(low))) => Ok(low.tree),
        Ok(Reading::Whole(None)) => Err(ParseError::TooHigh),
        Ok(Reading::Fault(place)) => Err(ParseError::Unexpected(place as u32)),
        Err(_) => Err(ParseError::Memory),
    }
}
