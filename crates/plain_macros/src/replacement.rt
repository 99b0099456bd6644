//! What replaces an outermost list.
ghost use Rattle.std.specs.Prelude.{◌≡◌, map, IfOk};
ghost use Rattle.c_text.specs.Token.{plain_token};
ghost use Rattle.c_text.specs.Macros as spec;
ghost use Rattle.plain_macros.specs.PlainItems.{plain_item};
ghost use Rattle.plain_macros.specs.PlainTables.{table_of};
ghost use Rattle.plain_macros.specs.PlainReplacements.{plain_replacement, outcome};
ghost use Rattle.plain_macros.specs.PlainRuns.{plain_finished};

use crate::items::Item;
use crate::levels::Level;
use crate::lists::outermost_items;
use crate::replacing::finished;
use crate::runs::Finished;
use crate::table::Table;
use c_text::Token;
use cond_formula::NoMemory;
use std::alloc::Global;

/// The depth of a list in which no macro but a feature may be replaced.
const DEEPEST: u32 = 256;

/// What becomes of a list of tokens.
#[derive(Debug, Drop)]
pub enum Replacement {
    /// The tokens that replace the list.
    Tokens(Vec<Token>),
    /// A call is refused; this is the name of the outermost call.
    BadCall(Token),
}

fn tokens_of(alloc: Global, items: &[Item<'_, '_>]) -> Result<Vec<Token>, NoMemory>
    ensures { IfOk result (λ tokens. map plain_token tokens.items ≡ map (λ item. item.token) (map plain_item items.now)) }
{
    let mut tokens = Vec::with_capacity(alloc, items.len())?;
    for item in items {
        tokens.push(item.to_token(alloc)?)?;
    }
    Ok(tokens)
}

fn made(alloc: Global, finished: Finished<'_, '_>) -> Result<Replacement, NoMemory>
    ensures { IfOk result (λ r. plain_replacement r ≡ outcome (plain_finished finished.entry)) }
{
    match finished {
        Finished::Fine(items) => Ok(Replacement::Tokens(tokens_of(alloc, items.as_slice())?)),
        Finished::BadCall(name) => Ok(Replacement::BadCall(name.to_token(alloc)?)),
    }
}

/// Replaces the macros in an outermost list, or in the list of an `#if` or `#elif`. A call whose `)`
/// ends in the file before its name begins would have a site that no token can have; among the tokens
/// of one file in their order there is none, and in other lists it counts as want of memory.
pub fn replaced(alloc: Global, table: &Table, tokens: &[&Token]) -> Result<Replacement, NoMemory>
    ensures { IfOk result (λ r. plain_replacement r ≡ outcome (spec.replaced (table_of table.now) (map (λ t. plain_token t.now) tokens.now))) }
{
    let items = outermost_items(alloc, tokens)?;
    let active: Vec<Item<'_, '_>> = Vec::new(alloc);
    let level = Level {
        alloc,
        table,
        active: active.as_slice(),
        left: DEEPEST,
    };
    let list = finished(&level, items.as_slice())?;
    Ok(made(alloc, list)?)
}
