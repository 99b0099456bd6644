//! Macros as values that stand under conditions.
ghost use Rattle.std.specs.Prelude.{◌≡◌, map, IsTrue, IfOk};
ghost use Rattle.std.specs.Option.{option_map};
ghost use Rattle.c_text.specs.Token.{plain_token};
ghost use Rattle.c_text.specs.Directives.{PlainMacro};
ghost use Rattle.c_text.specs.PlainMacros.{plain_macro};
ghost use Rattle.macro_table.specs.PlainDefinitions.{plain_definition};

use crate::meanings::same_names;
use c_text::{Macro, Token};
use cond_formula::NoMemory;
use conditional::Plain;
use std::alloc::Global;

/// A macro as it was defined.
#[derive(Drop)]
pub struct Definition {
    pub given: Macro,
}

impl Plain for Definition {
    ghost Form = { PlainMacro };

    ghost form = { plain_definition };

    /// Whether the macros are the same, the origins of their tokens too.
    fn is_same(&self, other: &Definition) -> bool {
        self.given.name.as_slice() == other.given.name.as_slice()
            && has_same_params(&self.given, &other.given)
            && are_same_tokens(self.given.body.as_slice(), other.given.body.as_slice())
    }

    fn try_clone(&self, alloc: Global) -> Result<Definition, NoMemory> {
        let given = copied(alloc, &self.given)?;
        Ok(Definition { given })
    }
}

fn are_same_tokens(tokens: &[Token], others: &[Token]) -> bool
    ensures { IsTrue result → map plain_token tokens.now ≡ map plain_token others.now }
{
    if tokens.len() != others.len() {
        return false;
    }
    for (i, token) in tokens.iter().enumerate() {
        if !token.is_same(&others[i]) {
            return false;
        }
    }
    true
}

#[tactic(auto, using(crate::proofs::MeaningLemmas::same_texts_are))]
fn has_same_params(m: &Macro, other: &Macro) -> bool
    ensures { IsTrue result → (plain_macro m.now).params ≡ (plain_macro other.now).params }
{
    match (&m.params, &other.params) {
        (None, None) => true,
        (Some(names), Some(others)) => same_names(names.as_slice(), others.as_slice()),
        _ => false,
    }
}

fn copied_names(alloc: Global, names: &[Vec<u8>]) -> Result<Vec<Vec<u8>>, NoMemory>
    ensures { IfOk result (λ copies. map (λ n. n.items) copies.items ≡ map (λ n. n.items) names.now) }
{
    let mut copies = Vec::with_capacity(alloc, names.len())?;
    for name in names {
        copies.push(Vec::from_slice(alloc, name.as_slice())?)?;
    }
    Ok(copies)
}

fn copied_tokens(alloc: Global, tokens: &[Token]) -> Result<Vec<Token>, NoMemory>
    ensures { IfOk result (λ copies. map plain_token copies.items ≡ map plain_token tokens.now) }
{
    let mut copies = Vec::with_capacity(alloc, tokens.len())?;
    for token in tokens {
        copies.push(token.try_clone(alloc)?)?;
    }
    Ok(copies)
}

fn copied_params(
    alloc: Global,
    params: &Option<Vec<Vec<u8>>>,
) -> Result<Option<Vec<Vec<u8>>>, NoMemory>
    ensures { IfOk result (λ copy. option_map (λ names. map (λ n. n.items) names.items) copy ≡ option_map (λ names. map (λ n. n.items) names.items) params.now) }
{
    match params {
        None => Ok(None),
        Some(names) => Ok(Some(copied_names(alloc, names.as_slice())?)),
    }
}

/// The same macro once more, with the same origins.
pub fn copied(alloc: Global, m: &Macro) -> Result<Macro, NoMemory>
    ensures { IfOk result (λ copy. plain_macro copy ≡ plain_macro m.now) }
{
    Ok(Macro {
        name: Vec::from_slice(alloc, m.name.as_slice())?,
        params: copied_params(alloc, &m.params)?,
        body: copied_tokens(alloc, m.body.as_slice())?,
    })
}
