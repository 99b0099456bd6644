//! Copies of the tokens of a line.
ghost use Rattle.std.specs.Prelude.{◌≡◌, map, IfOk};
ghost use Rattle.c_text.specs.Token.{plain_token};
ghost use Rattle.c_text.specs.Directives.{in_body};

use c_text::{Place, Token};
use cond_formula::NoMemory;
use std::alloc::Global;

/// The same tokens once more.
pub fn copies(alloc: Global, tokens: &[Token]) -> Result<Vec<Token>, NoMemory>
    ensures { IfOk result (λ copies. map plain_token copies.items ≡ map plain_token tokens.now) }
{
    let mut copies = Vec::with_capacity(alloc, tokens.len())?;
    for token in tokens {
        copies.push(token.try_clone(alloc)?)?;
    }
    Ok(copies)
}

fn body_copy(alloc: Global, token: &Token) -> Result<Token, NoMemory>
    ensures { IfOk result (λ copy. plain_token copy ≡ in_body (plain_token token.now)) }
{
    let mut copy = token.try_clone(alloc)?;
    copy.origin.place = Place::MacroBody;
    Ok(copy)
}

/// The tokens of a macro's body, which stand in a `#define` line.
pub fn body_copies(alloc: Global, tokens: &[Token]) -> Result<Vec<Token>, NoMemory>
    ensures { IfOk result (λ copies. map plain_token copies.items ≡ map in_body (map plain_token tokens.now)) }
{
    let mut copies = Vec::with_capacity(alloc, tokens.len())?;
    for token in tokens {
        copies.push(body_copy(alloc, token)?)?;
    }
    Ok(copies)
}
