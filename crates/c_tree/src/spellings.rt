//! Which spellings are which terminals.

ghost use Rattle.std.specs.Prelude.{◌≡◌, map};
ghost use Rattle.c_text.specs.Token.{plain_token};
ghost use Rattle.c_tree.specs.Terminals as spec;
ghost use Rattle.c_tree.specs.Spellings.{plain_spelling};
ghost use Rattle.c_tree.specs.Terminals.{found, keywords, punctuators};

use crate::terminals::Terminal;
use c_text::{Token, TokenKind};

/// A spelling and what it is.
struct Spelling(&'static [u8], Terminal);

fn keywords() -> &'static [Spelling]
    ensures { map plain_spelling result.now ≡ keywords }
{
    &[
        Spelling(b"void", Terminal::Void),
        Spelling(b"char", Terminal::Char),
        Spelling(b"unsigned", Terminal::Unsigned),
        Spelling(b"int", Terminal::Int),
        Spelling(b"long", Terminal::Long),
        Spelling(b"struct", Terminal::Struct),
        Spelling(b"static", Terminal::Static),
        Spelling(b"extern", Terminal::Extern),
        Spelling(b"inline", Terminal::Inline),
        Spelling(b"if", Terminal::If),
        Spelling(b"else", Terminal::Else),
        Spelling(b"while", Terminal::While),
        Spelling(b"do", Terminal::Do),
        Spelling(b"for", Terminal::For),
        Spelling(b"break", Terminal::Jump),
        Spelling(b"continue", Terminal::Jump),
        Spelling(b"return", Terminal::Return),
    ]
}

fn punctuators() -> &'static [Spelling]
    ensures { map plain_spelling result.now ≡ punctuators }
{
    &[
        Spelling(b"(", Terminal::OpenParenthesis),
        Spelling(b")", Terminal::CloseParenthesis),
        Spelling(b"[", Terminal::OpenBracket),
        Spelling(b"]", Terminal::CloseBracket),
        Spelling(b"{", Terminal::OpenBrace),
        Spelling(b"}", Terminal::CloseBrace),
        Spelling(b";", Terminal::Semicolon),
        Spelling(b",", Terminal::Comma),
        Spelling(b"?", Terminal::Question),
        Spelling(b":", Terminal::Colon),
        Spelling(b".", Terminal::Select),
        Spelling(b"->", Terminal::Select),
        Spelling(b"++", Terminal::Step),
        Spelling(b"--", Terminal::Step),
        Spelling(b"&", Terminal::Ampersand),
        Spelling(b"*", Terminal::Star),
        Spelling(b"+", Terminal::Sign),
        Spelling(b"-", Terminal::Sign),
        Spelling(b"~", Terminal::Negation),
        Spelling(b"!", Terminal::Negation),
        Spelling(b"/", Terminal::Divide),
        Spelling(b"%", Terminal::Divide),
        Spelling(b"<<", Terminal::Shift),
        Spelling(b">>", Terminal::Shift),
        Spelling(b"<", Terminal::Relation),
        Spelling(b">", Terminal::Relation),
        Spelling(b"<=", Terminal::Relation),
        Spelling(b">=", Terminal::Relation),
        Spelling(b"==", Terminal::Equality),
        Spelling(b"!=", Terminal::Equality),
        Spelling(b"^", Terminal::Caret),
        Spelling(b"|", Terminal::Bar),
        Spelling(b"&&", Terminal::AndAnd),
        Spelling(b"||", Terminal::OrOr),
        Spelling(b"=", Terminal::Assign),
        Spelling(b"*=", Terminal::CompoundAssign),
        Spelling(b"/=", Terminal::CompoundAssign),
        Spelling(b"%=", Terminal::CompoundAssign),
        Spelling(b"+=", Terminal::CompoundAssign),
        Spelling(b"-=", Terminal::CompoundAssign),
        Spelling(b"<<=", Terminal::CompoundAssign),
        Spelling(b">>=", Terminal::CompoundAssign),
        Spelling(b"&=", Terminal::CompoundAssign),
        Spelling(b"^=", Terminal::CompoundAssign),
        Spelling(b"|=", Terminal::CompoundAssign),
    ]
}

fn found(text: &[u8], spellings: &[Spelling]) -> Terminal
    ensures { result ≡ found text.now (map plain_spelling spellings.now) }
{
    for spelling in spellings {
        let Spelling(written, terminal) = spelling;
        if text == *written {
            return *terminal;
        }
    }
    Terminal::Other
}

/// What a token is to the grammar (6.4.1, 6.4.6).
pub fn terminal(token: &Token) -> Terminal
    ensures { result ≡ spec.terminal (plain_token token.now) }
{
    match token.kind {
        TokenKind::Name => Terminal::Name,
        TokenKind::Keyword => found(&token.text, keywords()),
        TokenKind::Number => Terminal::Number,
        TokenKind::Character => Terminal::Character,
        TokenKind::Text => Terminal::Text,
        TokenKind::Punctuator => found(&token.text, punctuators()),
        TokenKind::Bad(_) => Terminal::Other,
    }
}
