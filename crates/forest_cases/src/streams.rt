//! Streams from texts with `#ifdef`, `#ifndef`, `#else` and `#endif`, whose names are a letter, or `F` with a number.

use c_lexer::lex;
use c_text::Token;
use cond_formula::{Config, Formula, NoMemory};
use cond_tokens::{CondStream, CondToken};
use std::alloc::Global;

fn feature(name: &[u8]) -> u8 {
    match name {
        [b'F', digits @ ..] => {
            let mut number = 0u8;
            for digit in digits {
                number = (number % 10) * 10 + digit.saturating_sub(b'0') % 10;
            }
            number
        }
        [letter, ..] => letter.saturating_sub(b'A'),
        [] => 0,
    }
}

fn copies(alloc: Global, groups: &[Formula]) -> Result<Formula, NoMemory> {
    let mut all = Formula::True;
    for group in groups {
        all = Formula::and(alloc, all, group.try_clone(alloc)?)?;
    }
    Ok(all)
}

/// The stream of a text without errors.
pub(crate) fn stream_of(alloc: Global, text: &[u8]) -> Result<CondStream, NoMemory> {
    let mut tokens = Vec::new(alloc);
    let mut groups: Vec<Formula> = Vec::new(alloc);
    if text.len() < 4_294_967_295 {
        for line in lex(alloc, 0, text)? {
            if line.directive {
                let word = line
                    .tokens
                    .get(1)
                    .map_or(b"".as_slice(), |t| t.text.as_slice());
                let name = line
                    .tokens
                    .get(2)
                    .map_or(b"".as_slice(), |t| t.text.as_slice());
                let plain = Formula::Var(feature(name));
                match word {
                    b"ifdef" => groups.push(plain)?,
                    b"ifndef" => groups.push(Formula::not(alloc, plain)?)?,
                    b"else" => {
                        if let Some(group) = groups.pop() {
                            groups.push(Formula::not(alloc, group)?)?;
                        }
                    }
                    _ => {
                        let _ = groups.pop();
                    }
                }
            } else {
                for token in line.tokens {
                    let when = copies(alloc, &groups)?;
                    tokens.push(CondToken { token, when })?;
                }
            }
        }
    }
    Ok(CondStream {
        tokens,
        refused: Formula::False,
    })
}

/// The tokens that are present in a configuration.
pub(crate) fn tokens_in(
    alloc: Global,
    stream: &CondStream,
    c: Config,
) -> Result<Vec<Token>, NoMemory> {
    let mut tokens = Vec::new(alloc);
    for entry in &stream.tokens {
        if entry.when.value(c) {
            tokens.push(entry.token.try_clone(alloc)?)?;
        }
    }
    Ok(tokens)
}
