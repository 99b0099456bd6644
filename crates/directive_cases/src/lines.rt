//! Lines of tokens that stand under conditions, as a case writes them.
use c_text::{Origin, Place, Token, TokenKind};
use cond_formula::{Formula, NoMemory};
use cond_tokens::CondToken;
use std::alloc::Global;
use text_edits::Span;

const NOWHERE: Span = Span { start: 0, end: 0 };

fn kind_of(text: &str) -> TokenKind {
    let digits = text.bytes().all(|b| b.is_ascii_digit());
    let letters = text.bytes().all(|b| b.is_ascii_alphabetic());
    if digits {
        TokenKind::Number
    } else if letters {
        TokenKind::Name
    } else {
        TokenKind::Punctuator
    }
}

pub(crate) fn token(alloc: Global, text: &str, when: Formula) -> Result<CondToken, NoMemory> {
    let token = Token {
        kind: kind_of(text),
        text: Vec::from_slice(alloc, text.as_bytes())?,
        joined: false,
        origin: Origin {
            file: 0,
            span: NOWHERE,
            place: Place::Text,
            site: NOWHERE,
            site_file: 0,
        },
    };
    Ok(CondToken { token, when })
}

/// The condition that is written so: `A`, `B`, `-A` or `-B`.
pub(crate) fn condition(alloc: Global, text: &str) -> Result<Formula, NoMemory> {
    match text {
        "A" => Ok(Formula::Var(0)),
        "B" => Ok(Formula::Var(1)),
        "-A" => Formula::not(alloc, Formula::Var(0)),
        "-B" => Formula::not(alloc, Formula::Var(1)),
        _ => Ok(Formula::True),
    }
}

/// The tokens of a line, with blanks between them and conditions behind an `@`.
pub(crate) fn tokens(alloc: Global, line: &str) -> Result<Vec<CondToken>, NoMemory> {
    let mut tokens = Vec::new(alloc);
    for word in line.split(' ') {
        match word.split_once('@') {
            Some((text, when)) => tokens.push(token(alloc, text, condition(alloc, when)?)?)?,
            None => tokens.push(token(alloc, word, Formula::True)?)?,
        }
    }
    Ok(tokens)
}
