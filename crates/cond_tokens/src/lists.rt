//! Tokens under conditions as conditional lists. Nothing is copied.
ghost use Rattle.std.specs.Prelude.{◌≡◌, ℕ, Bool, IfOk};
ghost use Rattle.c_text.specs.Token.{plain_token};
ghost use Rattle.conditional.specs.Entries.{listed, seen};
ghost use Rattle.cond_tokens.specs.Streams.{tokens_at};

use crate::tokens::CondToken;
use c_text::Token;
use cond_formula::NoMemory;
use conditional::{CondList, Guarded};
use std::alloc::Global;

/// The tokens of a conditional list.
pub fn from_list(alloc: Global, list: CondList<Token>) -> Result<Vec<CondToken>, NoMemory>
    ensures { IfOk result (λ tokens. (on : ℕ → Bool) → tokens_at on tokens.items ≡ seen on (listed plain_token list)) }
{
    let mut tokens = Vec::with_capacity(alloc, list.entries.len())?;
    for entry in list.entries {
        let Guarded { when, what: token } = entry;
        tokens.push(CondToken { token, when })?;
    }
    Ok(tokens)
}

/// The conditional list that these tokens are.
pub fn into_list(alloc: Global, tokens: Vec<CondToken>) -> Result<CondList<Token>, NoMemory>
    ensures { IfOk result (λ list. (on : ℕ → Bool) → seen on (listed plain_token list) ≡ tokens_at on tokens.items) }
{
    let mut entries = Vec::with_capacity(alloc, tokens.len())?;
    for entry in tokens {
        let CondToken { token: what, when } = entry;
        entries.push(Guarded { when, what })?;
    }
    Ok(CondList { entries })
}
