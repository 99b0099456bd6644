use crate::outcomes::{Outcome, Place};
use c_lexer::lex;
use c_text::{FileToken, Token};
use c_tree::Tree;
use plain_elab::elaborate;
use plain_parse::{ParseError, parse};
use plain_scope::ElabError;
use std::alloc::{AllocError, Global};

/// The tokens of a text that has no directives.
fn tokens_of(alloc: Global, file: u32, text: &[u8]) -> Result<Vec<Token>, AllocError> {
    let mut tokens = Vec::new(alloc);
    if text.len() <= 4_294_967_295 {
        for line in lex(alloc, file, text)? {
            for token in line.tokens {
                tokens.push(token)?;
            }
        }
    }
    Ok(tokens)
}

/// Where the token with this number begins, or the text ends.
fn offset_of(tokens: &[Token], number: usize, text: &str) -> usize {
    match tokens.get(number) {
        Some(token) => token.origin.span.start as usize,
        None => text.len(),
    }
}

/// The tree of a unit, or why it has none.
fn tree_of(alloc: Global, unit: usize, text: &str) -> Result<Tree, Outcome> {
    let Ok(file) = u32::try_from(unit) else {
        return Err(Outcome::Memory);
    };
    let Ok(tokens) = tokens_of(alloc, file, text.as_bytes()) else {
        return Err(Outcome::Memory);
    };
    if tokens.len() >= 4_294_967_295 {
        return Err(Outcome::Memory);
    }
    match parse(alloc, &tokens) {
        Ok(tree) => Ok(tree),
        Err(ParseError::Unexpected(number)) => {
            let offset = offset_of(&tokens, number as usize, text);
            Err(Outcome::Unexpected(Place { unit, offset }))
        }
        Err(ParseError::TooHigh) => Err(Outcome::TooHigh),
        Err(ParseError::Memory) => Err(Outcome::Memory),
    }
}

fn place_of(at: &FileToken) -> Place {
    Place {
        unit: at.file as usize,
        offset: at.span.start as usize,
    }
}

/// What becomes of trees.
fn judged(alloc: Global, trees: &[Tree]) -> Result<Outcome, AllocError> {
    match elaborate(alloc, trees) {
        Ok(_) => Ok(Outcome::Accepted),
        Err(ElabError::BadType(kind, at)) => Ok(Outcome::Refused(kind, place_of(&at))),
        Err(ElabError::Link(kind, name)) => {
            let name = String::from_utf8_lossy(alloc, name.as_slice())?;
            Ok(Outcome::Unlinked(kind, name))
        }
        Err(ElabError::Memory) => Ok(Outcome::Memory),
    }
}

/// What becomes of the units with these texts.
pub(crate) fn outcome(alloc: Global, texts: &[String]) -> Result<Outcome, AllocError> {
    let mut trees = Vec::new(alloc);
    for (unit, text) in texts.iter().enumerate() {
        match tree_of(alloc, unit, text.as_str()) {
            Ok(tree) => trees.push(tree)?,
            Err(outcome) => return Ok(outcome),
        }
    }
    judged(alloc, &trees)
}
