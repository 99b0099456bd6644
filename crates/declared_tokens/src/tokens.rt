//! What declares each token.

ghost use Rattle.std.specs.Prelude.{◌≡◌, ◌<◌, ◌++◌, [], ℕ, Bool, length, All, IfOk, OnOk};
ghost use Rattle.cond_formula.specs.Features.{has};
ghost use Rattle.cond_pairings.specs.Pairs.{one_seen, pairs_seen};
ghost use Rattle.conditional.specs.Entries.{first};
ghost use Rattle.declared_tokens.specs.Declarations.{declared_among, numbers_at, declared_at};

use cond_formula::{Config, Formula, NoMemory};
use cond_pairings::CondPairing;
use std::alloc::Global;

/// What declares a token, where the condition is true.
#[derive(Drop)]
pub struct DeclaredBy {
    /// The number of the declaring token in the unit's stream.
    pub number: u32,
    pub when: Formula,
}

/// What declares the tokens of a unit.
#[derive(Drop)]
pub struct DeclaredTokens {
    /// For each token of the unit's stream, by its number, what declares it; nothing for one that is no identifier.
    pub by_token: Vec<Vec<DeclaredBy>>,
}

/// How many tokens there are up to the last of the identifiers.
fn count_tokens(pairs: &[CondPairing]) -> usize
    ensures { All (λ p. p.identifier < result) pairs.now }
{
    let mut count = 0;
    for pair in pairs {
        let behind = pair.identifier as usize + 1;
        if count < behind {
            count = behind;
        }
    }
    count
}

impl DeclaredTokens {
    /// So many tokens, of which none is declared.
    fn undeclared(alloc: Global, tokens: usize) -> Result<DeclaredTokens, NoMemory>
        ensures many { IfOk result (λ all. length all.by_token.items ≡ tokens) }
        ensures none { IfOk result (λ all. (on : ℕ → Bool) (token : ℕ) → declared_at on all token ≡ []) }
    {
        let mut by_token = Vec::with_capacity(alloc, tokens)?;
        for _ in 0..tokens {
            by_token.push(Vec::new(alloc))?;
        }
        Ok(DeclaredTokens { by_token })
    }

    /// One pair more.
    fn add(&mut self, alloc: Global, pair: &CondPairing) -> Result<(), NoMemory>
        requires { pair.now.identifier < length self.now.by_token.items }
        ensures many { OnOk result (length self.new.by_token.items ≡ length self.old.by_token.items) }
        ensures added { OnOk result ((on : ℕ → Bool) (token : ℕ) → declared_at on self.new token
            ≡ declared_at on self.old token ++ declared_among token (one_seen on pair.now)) }
    {
        let when = pair.when.try_clone(alloc)?;
        self.by_token[pair.identifier as usize].push(DeclaredBy {
            number: pair.declared_by,
            when,
        })?;
        Ok(())
    }

    /// What pairs of identifiers say.
    pub fn from_pairs(alloc: Global, pairs: &[CondPairing]) -> Result<DeclaredTokens, NoMemory>
        ensures { IfOk result (λ all. (on : ℕ → Bool) (token : ℕ) → declared_at on all token ≡ declared_among token (pairs_seen on pairs.now)) }
    {
        let tokens = count_tokens(pairs);
        let mut all = DeclaredTokens::undeclared(alloc, tokens)?;
        for pair in pairs {
            all.add(alloc, pair)?;
        }
        Ok(all)
    }

    /// What may declare a token; nothing where the unit has no token with this number.
    pub(crate) fn entries(&self, token: usize) -> &[DeclaredBy]
        ensures { (on : ℕ → Bool) → numbers_at on result.now ≡ declared_at on self.now token }
    {
        match self.by_token.get(token) {
            Some(entries) => entries.as_slice(),
            None => &[],
        }
    }

    /// The token that declares one in a configuration, by its number in the unit's stream; nothing where that one isn't there or isn't declared.
    pub fn declaration(&self, token: u32, c: Config) -> Option<u32>
        ensures { result ≡ first (declared_at (has c) self.now token) }
    {
        let entries = self.by_token.get(token as usize)?;
        for entry in entries {
            if entry.when.value(c) {
                return Some(entry.number);
            }
        }
        None
    }
}
