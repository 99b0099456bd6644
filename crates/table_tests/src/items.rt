use c_text::{Origin, Place, Token, TokenKind};
use c_tree::Kind;
use choice_trees::{Choice, Item};
use cond_formula::{Formula, NoMemory};
use std::alloc::Global;
use text_edits::Span;

/// A token.
pub(crate) fn leaf(alloc: Global, kind: TokenKind, text: &str) -> Result<Item, NoMemory> {
    let span = Span { start: 0, end: 0 };
    let token = Token {
        kind,
        text: Vec::from_slice(alloc, text.as_bytes())?,
        joined: false,
        origin: Origin {
            file: 0,
            span,
            place: Place::Text,
            site: span,
            site_file: 0,
        },
    };
    Ok(Item::Leaf(0, token))
}

/// A part that is there where the condition is true.
pub(crate) fn when(alloc: Global, when: Formula, item: Item) -> Result<Choice<Item>, NoMemory> {
    let mut branches = Vec::with_capacity(alloc, 1)?;
    branches.push((when, item))?;
    Ok(Choice { branches })
}

/// A node with one part.
pub(crate) fn around(alloc: Global, kind: Kind, part: Item) -> Result<Item, NoMemory> {
    let mut parts = Vec::with_capacity(alloc, 1)?;
    parts.push(when(alloc, Formula::True, part)?)?;
    Ok(Item::Node(kind, parts))
}
