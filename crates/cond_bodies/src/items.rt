//! Tokens under conditions while they are replaced.
ghost use Rattle.std.specs.Prelude.{◌≡◌, ℕ, Bool, [], ◌∷◌, ◌++◌, map, IfOk, OnOk};
ghost use Rattle.c_text.specs.Token.{plain_token};
ghost use Rattle.c_text.specs.Macros as spec;
ghost use Rattle.cond_formula.specs.Conditions.{condition_of, value};
ghost use Rattle.conditional.specs.Entries.{entries_of, listed, seen, under};
ghost use Rattle.cond_bodies.specs.CondItems.{item_at, items_at, token_like};

use crate::item::{Item, Site};
use c_text::{Origin, Place, Token};
use cond_formula::{Formula, NoMemory};
use conditional::{CondList, Guarded};
use reduced_conditions::{both_of, is_never, without};
use std::alloc::{AllocError, Global};
use text_edits::Span;

/// One more entry, unless its condition is never true.
pub fn push<'t>(
    list: &mut Vec<Guarded<Item<'t>>>,
    when: Formula,
    what: Item<'t>,
) -> Result<(), NoMemory>
    ensures { OnOk result ((on : ℕ → Bool) → items_at on list.new.items ≡ items_at on list.old.items ++ under (value on (condition_of when)) (item_at on what.entry ∷ [])) }
{
    if is_never(&when) {
        return Ok(());
    }
    list.push(Guarded { when, what })?;
    Ok(())
}

/// The items, where the condition holds.
pub fn push_under<'t>(
    alloc: Global,
    list: &mut Vec<Guarded<Item<'t>>>,
    when: &Formula,
    items: &[Guarded<Item<'t>>],
) -> Result<(), NoMemory>
    ensures { OnOk result ((on : ℕ → Bool) → items_at on list.new.items ≡ items_at on list.old.items ++ under (value on (condition_of when.now)) (items_at on items.now)) }
{
    for entry in items {
        let item = entry.what.try_clone(alloc)?;
        let here = both_of(alloc, &entry.when, when)?;
        push(list, here, item)?;
    }
    Ok(())
}

/// The items as a call from its first to its last token brings them, where the condition holds.
pub fn push_brought<'t>(
    alloc: Global,
    list: &mut Vec<Guarded<Item<'t>>>,
    when: &Formula,
    items: &[Guarded<Item<'t>>],
    first: &Token,
    last: &Token,
) -> Result<(), NoMemory>
    ensures { OnOk result ((on : ℕ → Bool) → items_at on list.new.items ≡ items_at on list.old.items ++ under (value on (condition_of when.now)) (map (spec.brought (plain_token first.now) (plain_token last.now)) (items_at on items.now))) }
{
    for entry in items {
        let item = entry.what.brought(alloc, first, last)?;
        let here = both_of(alloc, &entry.when, when)?;
        push(list, here, item)?;
    }
    Ok(())
}

fn in_call(place: Place) -> Place
    ensures { result ≡ spec.in_call place }
{
    match place {
        Place::Text | Place::MacroArgument => Place::MacroArgument,
        Place::MacroBody => Place::MacroBody,
    }
}

// The item as a token of its own, where it copies this token.
fn token_of(alloc: Global, item: &Item<'_>, token: &Token) -> Result<Token, NoMemory>
    ensures { IfOk result (λ t. plain_token t ≡ token_like item.now (plain_token token.now)) }
{
    let Site { start, end, file } = item.site;
    if end < start {
        return Err(AllocError);
    }
    let mut place = token.origin.place;
    if item.called {
        place = in_call(place);
    }
    Ok(Token {
        kind: token.kind,
        text: Vec::from_slice(alloc, token.text.as_slice())?,
        joined: token.joined,
        origin: Origin {
            file: token.origin.file,
            span: token.origin.span,
            place,
            site: Span { start, end },
            site_file: file,
        },
    })
}

fn push_token(
    alloc: Global,
    tokens: &mut Vec<Guarded<Token>>,
    when: Formula,
    item: &Item<'_>,
    token: &Token,
) -> Result<(), NoMemory>
    ensures { OnOk result ((on : ℕ → Bool) → seen on (entries_of plain_token tokens.new.items) ≡ seen on (entries_of plain_token tokens.old.items) ++ under (value on (condition_of when)) (token_like item.now (plain_token token.now) ∷ [])) }
{
    if is_never(&when) {
        return Ok(());
    }
    let what = token_of(alloc, item, token)?;
    tokens.push(Guarded { when, what })?;
    Ok(())
}

// The token that an item copies, where the condition holds.
fn push_tokens(
    alloc: Global,
    tokens: &mut Vec<Guarded<Token>>,
    when: &Formula,
    item: &Item<'_>,
) -> Result<(), NoMemory>
    ensures { OnOk result ((on : ℕ → Bool) → seen on (entries_of plain_token tokens.new.items) ≡ seen on (entries_of plain_token tokens.old.items) ++ under (value on (condition_of when.now)) ((item_at on item.now).token ∷ [])) }
{
    let mut left = when.try_clone(alloc)?;
    for other in &item.others {
        let here = both_of(alloc, &left, &other.when)?;
        push_token(alloc, tokens, here, item, other.what)?;
        left = without(alloc, left, &other.when)?;
    }
    push_token(alloc, tokens, left, item, item.token)?;
    Ok(())
}

/// The items as tokens of their own.
pub fn tokens_of(alloc: Global, items: &[Guarded<Item<'_>>]) -> Result<CondList<Token>, NoMemory>
    ensures { IfOk result (λ tokens. (on : ℕ → Bool) → seen on (listed plain_token tokens) ≡ map (λ i. i.token) (items_at on items.now)) }
{
    let mut entries = Vec::with_capacity(alloc, items.len())?;
    for entry in items {
        push_tokens(alloc, &mut entries, &entry.when, &entry.what)?;
    }
    Ok(CondList { entries })
}
