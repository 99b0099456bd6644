use c_text::{Origin, Place, Token, TokenKind};
use c_tree::Kind;
use choice_trees::{Choice, Item};
use cond_formula::{Formula, NoMemory};
use std::alloc::Global;
use text_edits::Span;

fn leaf(alloc: Global, kind: TokenKind, text: &str) -> Result<Item, NoMemory> {
    let span = Span { start: 0, end: 0 };
    let token = Token {
        kind,
        text: Vec::from_slice(alloc, text.as_bytes())?,
        joined: false,
        origin: Origin {
            file: 0,
            span,
            place: Place::Text,
            site: span,
            site_file: 0,
        },
    };
    Ok(Item::Leaf(0, token))
}

/// A part that is there where the condition is true.
pub(crate) fn when(alloc: Global, when: Formula, item: Item) -> Result<Choice<Item>, NoMemory> {
    let mut branches = Vec::with_capacity(alloc, 1)?;
    branches.push((when, item))?;
    Ok(Choice { branches })
}

pub(crate) fn always(alloc: Global, item: Item) -> Result<Choice<Item>, NoMemory> {
    when(alloc, Formula::True, item)
}

pub(crate) fn mark(alloc: Global, text: &str) -> Result<Choice<Item>, NoMemory> {
    always(alloc, leaf(alloc, TokenKind::Punctuator, text)?)
}

pub(crate) fn name(alloc: Global, text: &str) -> Result<Choice<Item>, NoMemory> {
    always(alloc, leaf(alloc, TokenKind::Name, text)?)
}

/// `OBJECT.m`
fn selected(alloc: Global, object: &str) -> Result<Item, NoMemory> {
    let mut parts = Vec::with_capacity(alloc, 3)?;
    parts.push(name(alloc, object)?)?;
    parts.push(mark(alloc, ".")?)?;
    parts.push(name(alloc, "m")?)?;
    Ok(Item::Node(Kind::Selection, parts))
}

/// `OBJECT.m;`
pub(crate) fn selection(alloc: Global, object: &str) -> Result<Item, NoMemory> {
    let mut statement = Vec::with_capacity(alloc, 2)?;
    statement.push(always(alloc, selected(alloc, object)?)?)?;
    statement.push(mark(alloc, ";")?)?;
    Ok(Item::Node(Kind::ExpressionStatement, statement))
}

/// `{ .. }`
pub(crate) fn block(alloc: Global, items: Vec<Choice<Item>>) -> Result<Item, NoMemory> {
    let mut parts = Vec::with_capacity(alloc, 3)?;
    parts.push(mark(alloc, "{")?)?;
    parts.push(always(alloc, Item::Node(Kind::Items, items))?)?;
    parts.push(mark(alloc, "}")?)?;
    Ok(Item::Node(Kind::Block, parts))
}
