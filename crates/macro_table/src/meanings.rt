//! What macros' names stand for, and where a second definition is refused.
ghost use Rattle.std.specs.Prelude.{◌≡◌, ℕ, Bool, not, ◌&&◌, ◌||◌, map, IfOk};
ghost use Rattle.c_text.specs.Token.{plain_token};
ghost use Rattle.c_text.specs.PlainMacros.{plain_macro};
ghost use Rattle.c_text.specs.Preprocessing.{same_meaning, same_texts, texts};
ghost use Rattle.cond_formula.specs.Conditions.{condition_of, value};
ghost use Rattle.conditional.specs.Entries.{entries_of};
ghost use Rattle.macro_table.specs.PlainDefinitions.{plain_definition};
ghost use Rattle.macro_table.specs.MacroTables.{macro_meaning, clashes, meaning_among};

use crate::definitions::Definition;
use c_text::{Macro, Token};
use cond_formula::{Formula, NoMemory};
use conditional::Guarded;
use std::alloc::Global;

pub fn same_names(names: &[Vec<u8>], others: &[Vec<u8>]) -> bool
    ensures { result ≡ same_texts (map (λ n. n.items) names.now) (map (λ n. n.items) others.now) }
{
    if names.len() != others.len() {
        return false;
    }
    for (i, name) in names.iter().enumerate() {
        if name.as_slice() != others[i].as_slice() {
            return false;
        }
    }
    true
}

fn same_spellings(tokens: &[Token], others: &[Token]) -> bool
    ensures { result ≡ same_texts (texts (map plain_token tokens.now)) (texts (map plain_token others.now)) }
{
    if tokens.len() != others.len() {
        return false;
    }
    for (i, token) in tokens.iter().enumerate() {
        if token.text.as_slice() != others[i].text.as_slice() {
            return false;
        }
    }
    true
}

/// Whether the second definition of a name may follow the first: both have the same parameters, and bodies of the same
/// spellings. White space between the tokens doesn't count.
fn mean_the_same(m: &Macro, second: &Macro) -> bool
    ensures { result ≡ same_meaning (macro_meaning (plain_macro m.now)) (macro_meaning (plain_macro second.now)) }
{
    let spelled = same_spellings(m.body.as_slice(), second.body.as_slice());
    match (&m.params, &second.params) {
        (None, None) => spelled,
        (Some(params), Some(others)) => {
            same_names(params.as_slice(), others.as_slice()) && spelled
        }
        _ => false,
    }
}

fn with_same(alloc: Global, same: Formula, when: &Formula) -> Result<Formula, NoMemory>
    ensures { IfOk result (λ f. (on : ℕ → Bool) → value on (condition_of f) ≡ (value on (condition_of same) || value on (condition_of when.now))) }
{
    let either = Formula::or(alloc, same, when.try_clone(alloc)?)?;
    Ok(either)
}

fn with_clash(
    alloc: Global,
    clash: Formula,
    same: &Formula,
    when: &Formula,
) -> Result<Formula, NoMemory>
    ensures { IfOk result (λ f. (on : ℕ → Bool) → value on (condition_of f) ≡ (value on (condition_of clash) || (value on (condition_of when.now) && not (value on (condition_of same.now))))) }
{
    let elsewhere = Formula::not(alloc, same.try_clone(alloc)?)?;
    let here = Formula::and(alloc, when.try_clone(alloc)?, elsewhere)?;
    let either = Formula::or(alloc, clash, here)?;
    Ok(either)
}

/// The condition under which the definition that counts doesn't mean the same.
pub fn clash_condition(
    alloc: Global,
    definitions: &[Guarded<Definition>],
    m: &Macro,
) -> Result<Formula, NoMemory>
    ensures { IfOk result (λ f. (on : ℕ → Bool) → value on (condition_of f) ≡ clashes (meaning_among on (entries_of plain_definition definitions.now)) (macro_meaning (plain_macro m.now))) }
{
    let mut same = Formula::False;
    let mut clash = Formula::False;
    for definition in definitions {
        if mean_the_same(&definition.what.given, m) {
            same = with_same(alloc, same, &definition.when)?;
        } else {
            clash = with_clash(alloc, clash, &same, &definition.when)?;
        }
    }
    Ok(clash)
}
