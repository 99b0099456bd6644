use crate::choices::{seen, when};
use c_text::{FileToken, Origin, Place, Token, TokenKind};
use changed_forests::{copied, numbered, rename};
use choice_trees::{Choice, Forest, Item};
use cond_formula::{Formula, NoMemory};
use std::alloc::Global;
use std::test::Fail;
use text_edits::Span;

fn span(start: u32) -> Span {
    Span {
        start,
        end: start.saturating_add(1),
    }
}

/// The name `x` at an offset of the first file, where the condition is true.
fn name(
    alloc: Global,
    number: u32,
    start: u32,
    condition: Formula,
) -> Result<Choice<Item>, NoMemory> {
    let token = Token {
        kind: TokenKind::Name,
        text: Vec::from_slice(alloc, b"x")?,
        joined: false,
        origin: Origin {
            file: 0,
            span: span(start),
            place: Place::Text,
            site: span(start),
            site_file: 0,
        },
    };
    when(alloc, condition, Item::Leaf(number, token))
}

/// `x`, then `x` where the first feature is on, and `x` again.
fn names(alloc: Global) -> Result<Forest, NoMemory> {
    let mut items = Vec::with_capacity(alloc, 3)?;
    items.push(name(alloc, 0, 4, Formula::True)?)?;
    items.push(name(alloc, 1, 12, Formula::Var(0))?)?;
    items.push(name(alloc, 2, 20, Formula::True)?)?;
    Ok(Forest { items })
}

#[test]
fn each_configuration_sees_the_new_name(rt: HostRuntime) -> Result<(), Fail> {
    let alloc = rt.alloc();
    let mut forest = names(alloc)?;
    let before = copied(alloc, &forest)?;
    let class = [
        FileToken {
            file: 0,
            span: span(12),
        },
        FileToken {
            file: 0,
            span: span(20),
        },
        FileToken {
            file: 1,
            span: span(4),
        },
    ];
    rename(alloc, &mut forest, &class, b"total")?;
    assert_eq!(rt; seen(alloc, &forest, 0)?.as_slice(), b"x total ".as_slice());
    assert_eq!(rt;
        seen(alloc, &forest, 1)?.as_slice(),
        b"x total total ".as_slice()
    );
    assert_eq!(rt; seen(alloc, &before, 1)?.as_slice(), b"x x x ".as_slice());
    Ok(())
}

/// Where the sites of the tokens begin.
fn sites(alloc: Global, forest: &Forest) -> Result<Vec<u32>, NoMemory> {
    let mut all = Vec::new(alloc);
    for choice in &forest.items {
        for (_, item) in &choice.branches {
            if let Item::Leaf(_, token) = item {
                all.push(token.origin.site.start)?;
            }
        }
    }
    Ok(all)
}

#[test]
fn tokens_tell_their_numbers(rt: HostRuntime) -> Result<(), Fail> {
    let alloc = rt.alloc();
    let forest = names(alloc)?;
    let told = numbered(alloc, &forest)?;
    assert_eq!(rt; sites(alloc, &forest)?.as_slice(), [4, 12, 20].as_slice());
    assert_eq!(rt; sites(alloc, &told)?.as_slice(), [0, 1, 2].as_slice());
    Ok(())
}
