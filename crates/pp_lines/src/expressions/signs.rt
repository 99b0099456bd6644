//! What tokens say behind an operand.
ghost use Rattle.std.specs.Prelude.{◌≡◌};
ghost use Rattle.pp_lines.specs.ExpressionReading as reading;
ghost use Rattle.pp_lines.specs.ExpressionView.{sign_view};

use crate::expressions::operators::{Binary, binary_of};
use c_text::{Token, TokenKind};

/// What a token says behind an operand.
#[derive(Clone, Copy, Debug, PartialEq, Eq)]
pub enum Sign {
    Connects(Binary),
    /// `?`
    Asks,
    /// `:`
    Parts,
    /// `)`
    Closes,
    /// No expression goes on like this.
    Ends,
}

impl Sign {
    /// How tightly an operator must hold the operand before this sign, to take it.
    pub fn level(self) -> u32
        ensures { result ≡ reading.sign_level (sign_view self) }
    {
        match self {
            Sign::Connects(operator) => operator.level(),
            Sign::Asks => 2,
            _ => 1,
        }
    }
}

fn other_sign(text: &[u8]) -> Sign
    ensures { sign_view result ≡ reading.other_sign text.now }
{
    if b"?".as_slice() == text {
        Sign::Asks
    } else if b":".as_slice() == text {
        Sign::Parts
    } else if b")".as_slice() == text {
        Sign::Closes
    } else {
        Sign::Ends
    }
}

fn mark_sign(text: &[u8]) -> Sign
    ensures { sign_view result ≡ reading.connective_or (reading.other_sign text.now) (reading.binary_of text.now) }
{
    match binary_of(text) {
        Some(operator) => Sign::Connects(operator),
        None => other_sign(text),
    }
}

pub fn sign_of(token: &Token) -> Sign
    ensures { sign_view result ≡ reading.sign_of token.now.kind token.now.text.items }
{
    match token.kind {
        TokenKind::Punctuator => mark_sign(token.text.as_slice()),
        _ => Sign::Ends,
    }
}
