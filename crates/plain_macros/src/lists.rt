//! Lists of items, and what they become without being replaced.
ghost use Rattle.std.specs.Prelude.{◌≡◌, [], ◌∷◌, ◌++◌, List, map, drop, IfOk, OnOk};
ghost use Rattle.std.specs.Option.{option_map};
ghost use Rattle.c_text.specs.Token.{plain_token};
ghost use Rattle.c_text.specs.Directives.{is_word};
ghost use Rattle.c_text.specs.Macros as spec;
ghost use Rattle.plain_macros.specs.PlainItems.{plain_item, item_token, argument_or};

use crate::items::{Item, Source};
use c_text::{Token, TokenKind};
use cond_formula::NoMemory;
use std::alloc::Global;

/// The tokens of a body.
pub fn fresh_items<'table, 'list>(
    alloc: Global,
    tokens: &'table [Token],
) -> Result<Vec<Item<'table, 'list>>, NoMemory>
    ensures { IfOk result (λ items. map plain_item items.items ≡ map spec.fresh (map plain_token tokens.now)) }
{
    let mut items = Vec::with_capacity(alloc, tokens.len())?;
    for token in tokens {
        items.push(Item::fresh(Source::Body(token)))?;
    }
    Ok(items)
}

/// The tokens of an outermost list.
pub fn outermost_items<'table, 'list>(
    alloc: Global,
    tokens: &[&'list Token],
) -> Result<Vec<Item<'table, 'list>>, NoMemory>
    ensures { IfOk result (λ items. map plain_item items.items ≡ map spec.fresh (map (λ t. plain_token t.now) tokens.now)) }
{
    let mut items = Vec::with_capacity(alloc, tokens.len())?;
    for token in tokens {
        items.push(Item::fresh(Source::List(token)))?;
    }
    Ok(items)
}

/// The items as a call brings them.
pub fn brought_items<'table, 'list>(
    alloc: Global,
    items: &[Item<'table, 'list>],
    first: &Item<'table, 'list>,
    last: &Item<'table, 'list>,
) -> Result<Vec<Item<'table, 'list>>, NoMemory>
    ensures { IfOk result (λ brought. map plain_item brought.items ≡ map (spec.brought (item_token first.now) (item_token last.now)) (map plain_item items.now)) }
{
    let mut brought = Vec::with_capacity(alloc, items.len())?;
    for item in items {
        brought.push(item.brought(first, last))?;
    }
    Ok(brought)
}

/// Whether the token at this place is a `(`.
pub fn opens_at(items: &[Item<'_, '_>], at: usize) -> bool
    ensures { result ≡ spec.opens (map plain_item (drop at items.now)) }
{
    match items.get(at) {
        Some(item) => item.is_spelled(b"("),
        None => false,
    }
}

fn is_word(token: &Token) -> bool
    ensures { result ≡ is_word (plain_token token.now) }
{
    matches!(token.kind, TokenKind::Name | TokenKind::Keyword)
}

/// The argument of the parameter that a token of a body is, if it is one.
fn argument_for<'table, 'list, 'arguments>(
    params: &[Vec<u8>],
    arguments: &'arguments [Vec<Item<'table, 'list>>],
    token: &Token,
) -> Option<&'arguments Vec<Item<'table, 'list>>>
    ensures { argument_or (spec.fresh (plain_token token.now) ∷ []) (option_map (λ v. map plain_item v.now.items) result) ≡ spec.substituted_for (map (λ n. n.items) params.now) (map (λ v. map plain_item v.items) arguments.now) (plain_token token.now) }
{
    for (i, param) in params.iter().enumerate() {
        match arguments.get(i) {
            None => return None,
            Some(argument) => {
                if is_word(token) && token.text.as_slice() == param.as_slice() {
                    return Some(argument);
                }
            }
        }
    }
    None
}

fn push_substituted<'table, 'list>(
    items: &mut Vec<Item<'table, 'list>>,
    params: &[Vec<u8>],
    arguments: &[Vec<Item<'table, 'list>>],
    token: &'table Token,
) -> Result<(), NoMemory>
    ensures { OnOk result (map plain_item items.new.items ≡ map plain_item items.old.items ++ spec.substituted_for (map (λ n. n.items) params.now) (map (λ v. map plain_item v.items) arguments.now) (plain_token token.now)) }
{
    match argument_for(params, arguments, token) {
        Some(argument) => items.extend_from_slice(argument.as_slice())?,
        None => items.push(Item::fresh(Source::Body(token)))?,
    }
    Ok(())
}

/// A body with the arguments in the places of its parameters.
pub fn substituted<'table, 'list>(
    alloc: Global,
    params: &[Vec<u8>],
    arguments: &[Vec<Item<'table, 'list>>],
    body: &'table [Token],
) -> Result<Vec<Item<'table, 'list>>, NoMemory>
    ensures { IfOk result (λ items. map plain_item items.items ≡ spec.substituted (map (λ n. n.items) params.now) (map (λ v. map plain_item v.items) arguments.now) (map plain_token body.now)) }
{
    let mut items = Vec::with_capacity(alloc, body.len())?;
    for token in body {
        push_substituted(&mut items, params, arguments, token)?;
    }
    Ok(items)
}
