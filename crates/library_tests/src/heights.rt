use crate::choices::when;
use c_text::{Origin, Place, Token, TokenKind};
use c_tree::Kind;
use choice_trees::{Choice, Forest, Item};
use cond_formula::{Config, Formula, NoMemory};
use forest_heights::too_high;
use std::alloc::Global;
use std::test::Fail;
use text_edits::Span;

fn leaf(alloc: Global, kind: TokenKind, text: &str) -> Result<Item, NoMemory> {
    let span = Span { start: 0, end: 0 };
    let token = Token {
        kind,
        text: Vec::from_slice(alloc, text.as_bytes())?,
        joined: false,
        origin: Origin {
            file: 0,
            span,
            place: Place::Text,
            site: span,
            site_file: 0,
        },
    };
    Ok(Item::Leaf(0, token))
}

fn mark(alloc: Global, text: &str) -> Result<Choice<Item>, NoMemory> {
    when(
        alloc,
        Formula::True,
        leaf(alloc, TokenKind::Punctuator, text)?,
    )
}

/// The name in so many parentheses.
fn in_parentheses(alloc: Global, count: usize) -> Result<Item, NoMemory> {
    let mut item = leaf(alloc, TokenKind::Name, "x")?;
    for _ in 0..count {
        let mut parts = Vec::with_capacity(alloc, 3)?;
        parts.push(mark(alloc, "(")?)?;
        parts.push(when(alloc, Formula::True, item)?)?;
        parts.push(mark(alloc, ")")?)?;
        item = Item::Node(Kind::Parenthesized, parts);
    }
    Ok(item)
}

/// The item alone at file scope, under a condition.
fn alone(alloc: Global, condition: Formula, item: Item) -> Result<Forest, NoMemory> {
    let mut items = Vec::with_capacity(alloc, 1)?;
    items.push(when(alloc, condition, item)?)?;
    Ok(Forest { items })
}

/// Whether the tree is too high without the first feature, and with it.
fn is_too_high(alloc: Global, forest: &Forest) -> Result<(bool, bool), NoMemory> {
    let f = too_high(alloc, forest)?;
    Ok((f.value(Config { bits: 0 }), f.value(Config { bits: 1 })))
}

/// An array with this many elements, and a star where the first feature is on.
fn array(alloc: Global, size: Item) -> Result<Item, NoMemory> {
    let mut parts = Vec::with_capacity(alloc, 5)?;
    parts.push(when(
        alloc,
        Formula::Var(0),
        leaf(alloc, TokenKind::Punctuator, "*")?,
    )?)?;
    parts.push(when(alloc, Formula::True, leaf(alloc, TokenKind::Name, "a")?)?)?;
    parts.push(mark(alloc, "[")?)?;
    parts.push(when(alloc, Formula::True, size)?)?;
    parts.push(mark(alloc, "]")?)?;
    Ok(Item::Node(Kind::ArrayDeclarator, parts))
}

#[test]
fn parentheses_count_where_they_are(rt: HostRuntime) -> Result<(), Fail> {
    let alloc = rt.alloc();
    let low = alone(alloc, Formula::Var(0), in_parentheses(alloc, 510)?)?;
    assert!(rt; is_too_high(alloc, &low)? == (false, false));
    let high = alone(alloc, Formula::Var(0), in_parentheses(alloc, 511)?)?;
    assert!(rt; is_too_high(alloc, &high)? == (false, true));
    Ok(())
}

#[test]
fn stars_count_where_they_are(rt: HostRuntime) -> Result<(), Fail> {
    let alloc = rt.alloc();
    let size = in_parentheses(alloc, 509)?;
    let forest = alone(alloc, Formula::True, array(alloc, size)?)?;
    assert!(rt; is_too_high(alloc, &forest)? == (false, true));
    Ok(())
}
