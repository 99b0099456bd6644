//! Tokens as values that stand under conditions.

ghost use Rattle.c_text.specs.Token.{PlainToken, plain_token};

use crate::plain::Plain;
use c_text::Token;
use cond_formula::NoMemory;
use std::alloc::Global;

impl Plain for Token {
    ghost Form = { PlainToken };

    ghost form = { plain_token };

    /// Whether the tokens are the same, their origins too.
    fn is_same(&self, other: &Token) -> bool {
        self.same_spelling(other) && self.joined == other.joined && self.origin == other.origin
    }

    fn try_clone(&self, alloc: Global) -> Result<Token, NoMemory> {
        let copy = self.try_clone(alloc)?;
        Ok(copy)
    }
}
