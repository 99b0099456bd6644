ghost use Rattle.std.specs.Prelude.{◌≡◌, ◌↔◌, IsTrue, IfOk};
ghost use Rattle.c_text.specs.Token.{plain_token, SameSpelling};

use crate::origin::Origin;
use std::alloc::{AllocError, Global};

/// Why a piece of text is no lawful token.
#[derive(Clone, Copy, Debug, PartialEq, Eq)]
pub enum BadKind {
    /// A byte that begins no token.
    BadByte = 1,
    /// A comment that the file ends in.
    OpenComment = 2,
    /// A character or text that its line ends in.
    OpenQuote = 3,
    /// A number, character or text of C that the engine doesn't read.
    OutOfProfile = 4,
}

/// The kinds of preprocessing tokens, with keywords apart from other names.
#[derive(Clone, Copy, Debug, PartialEq, Eq)]
pub enum TokenKind {
    /// An identifier that is no keyword (6.4.2).
    Name,
    /// One of the 44 keywords (6.4.1).
    Keyword,
    /// A preprocessing number (6.4.8).
    Number,
    /// A character constant (6.4.4.4).
    Character,
    /// A string literal (6.4.5).
    Text,
    /// A punctuator (6.4.6).
    Punctuator,
    Bad(BadKind),
}

/// A preprocessing token.
#[derive(Debug, Drop)]
pub struct Token {
    pub kind: TokenKind,
    /// Its spelling, without splices.
    pub text: Vec<u8>,
    /// Whether it follows the token before it at once: with nothing between but splices. A `(` that
    /// follows the name of a `#define` so begins the macro's parameters (6.10.3).
    pub joined: bool,
    pub origin: Origin,
}

impl Token {
    /// Whether the two are the same token of C: of one kind and of the same bytes. Where they stand
    /// doesn't count.
    pub fn same_spelling(&self, other: &Token) -> bool
        ensures { IsTrue result ↔ SameSpelling (plain_token self.now) (plain_token other.now) }
    {
        self.kind == other.kind && self.text.as_slice() == other.text.as_slice()
    }

    /// The same token once more, with the same origin.
    pub fn try_clone(&self, alloc: Global) -> Result<Token, AllocError>
        ensures { IfOk result (λ t. plain_token t ≡ plain_token self.now) }
    {
        Ok(Token {
            kind: self.kind,
            text: Vec::from_slice(alloc, self.text.as_slice())?,
            joined: self.joined,
            origin: self.origin,
        })
    }
}
