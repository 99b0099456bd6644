use c_text::{Origin, Place, Token, TokenKind};
use c_tree::{Kind, spell};
use choice_trees::{Choice, Forest, Item, project};
use cond_formula::{Config, Formula, NoMemory};
use std::alloc::Global;
use std::test::Fail;
use text_edits::Span;

/// What always stands: a token, with its place in the line as its number.
fn always(alloc: Global, number: u32, text: &str) -> Result<Choice<Item>, NoMemory> {
    when(alloc, Formula::True, leaf(alloc, number, text)?)
}

pub(crate) fn when(alloc: Global, when: Formula, item: Item) -> Result<Choice<Item>, NoMemory> {
    let mut branches = Vec::with_capacity(alloc, 1)?;
    branches.push((when, item))?;
    Ok(Choice { branches })
}

pub(crate) fn leaf(alloc: Global, number: u32, text: &str) -> Result<Item, NoMemory> {
    let span = Span { start: 0, end: 0 };
    let token = Token {
        kind: TokenKind::Punctuator,
        text: Vec::from_slice(alloc, text.as_bytes())?,
        joined: false,
        origin: Origin {
            file: 0,
            span,
            place: Place::Text,
            site: span,
            site_file: 0,
        },
    };
    Ok(Item::Leaf(number, token))
}

/// `else z` where the first feature is on.
fn else_part(alloc: Global) -> Result<Choice<Item>, NoMemory> {
    let mut parts = Vec::with_capacity(alloc, 2)?;
    parts.push(always(alloc, 5, "else")?)?;
    parts.push(always(alloc, 6, "z")?)?;
    when(alloc, Formula::Var(0), Item::Node(Kind::Else, parts))
}

/// `if ( x )`, then `y` where the second feature is on, then the `else`; before it `w` where the first feature is on.
fn statement(alloc: Global) -> Result<Forest, NoMemory> {
    let mut parts = Vec::with_capacity(alloc, 6)?;
    parts.push(always(alloc, 0, "if")?)?;
    parts.push(always(alloc, 1, "(")?)?;
    parts.push(always(alloc, 2, "x")?)?;
    parts.push(always(alloc, 3, ")")?)?;
    parts.push(when(alloc, Formula::Var(1), leaf(alloc, 4, "y")?)?)?;
    parts.push(else_part(alloc)?)?;
    let mut items = Vec::with_capacity(alloc, 2)?;
    items.push(when(alloc, Formula::Var(0), leaf(alloc, 7, "w")?)?)?;
    items.push(when(alloc, Formula::True, Item::Node(Kind::If, parts))?)?;
    Ok(Forest { items })
}

/// The spelling of the tree that a configuration sees, with a blank behind each token.
pub(crate) fn seen(alloc: Global, forest: &Forest, bits: u128) -> Result<Vec<u8>, NoMemory> {
    let tree = project(alloc, forest, Config { bits })?;
    let mut text = Vec::new(alloc);
    for token in spell(alloc, &tree)? {
        text.extend_from_slice(&token.text)?;
        text.push(b' ')?;
    }
    Ok(text)
}

#[test]
fn each_configuration_sees_its_tree(rt: HostRuntime) -> Result<(), Fail> {
    let alloc = rt.alloc();
    let forest = statement(alloc)?;
    assert_eq!(rt;
        seen(alloc, &forest, 0)?.as_slice(),
        b"if ( x ) ; ".as_slice()
    );
    assert_eq!(rt;
        seen(alloc, &forest, 1)?.as_slice(),
        b"w if ( x ) ; else z ".as_slice()
    );
    assert_eq!(rt;
        seen(alloc, &forest, 2)?.as_slice(),
        b"if ( x ) y ".as_slice()
    );
    assert_eq!(rt;
        seen(alloc, &forest, 3)?.as_slice(),
        b"w if ( x ) y else z ".as_slice()
    );
    Ok(())
}
