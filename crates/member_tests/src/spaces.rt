use crate::items::{always, mark, name, when};
use c_tree::Kind;
use choice_trees::{Choice, Forest, Item};
use cond_formula::{Config, Formula, NoMemory, PlainOracle};
use cond_name_spaces::{Space, note_spaces};
use std::alloc::Global;
use std::test::Fail;

/// A node with these parts.
fn node(kind: Kind, parts: Vec<Choice<Item>>) -> Item {
    Item::Node(kind, parts)
}

/// `struct TAG`
fn words(alloc: Global, tag: &str) -> Result<Choice<Item>, NoMemory> {
    let mut parts = Vec::with_capacity(alloc, 1)?;
    parts.push(name(alloc, tag)?)?;
    always(alloc, node(Kind::Specifiers, parts))
}

/// `.. m;`
fn member(alloc: Global) -> Result<Item, NoMemory> {
    let mut declarator = Vec::with_capacity(alloc, 1)?;
    declarator.push(name(alloc, "m")?)?;
    let mut list = Vec::with_capacity(alloc, 1)?;
    list.push(always(alloc, node(Kind::Declarator, declarator))?)?;
    let mut parts = Vec::with_capacity(alloc, 2)?;
    parts.push(always(alloc, node(Kind::Declarators, list))?)?;
    parts.push(mark(alloc, ";")?)?;
    Ok(node(Kind::Member, parts))
}

/// `struct S { .. m; };`, where the member is there with feature 0 alone
fn unit(alloc: Global) -> Result<Forest, NoMemory> {
    let mut members = Vec::with_capacity(alloc, 1)?;
    members.push(when(alloc, Formula::Var(0), member(alloc)?)?)?;
    let mut parts = Vec::with_capacity(alloc, 5)?;
    parts.push(words(alloc, "S")?)?;
    parts.push(mark(alloc, "{")?)?;
    parts.push(always(alloc, node(Kind::Members, members))?)?;
    parts.push(mark(alloc, "}")?)?;
    parts.push(mark(alloc, ";")?)?;
    let mut items = Vec::with_capacity(alloc, 1)?;
    items.push(always(alloc, node(Kind::StructDefinition, parts))?)?;
    Ok(Forest { items })
}

/// How many tags, and how many members of S, a configuration sees.
fn count(alloc: Global, forest: &Forest, bits: u128) -> Result<(u32, u32), NoMemory> {
    let names = note_spaces(alloc, &mut PlainOracle, &Formula::True, forest)?;
    let mut tags: u32 = 0;
    let mut members: u32 = 0;
    for entry in &names.entries {
        if entry.when.value(Config { bits }) {
            match &entry.what.space {
                Space::Tags => tags = tags.saturating_add(1),
                Space::MembersOf(tag) if tag.as_slice() == b"S".as_slice() => {
                    members = members.saturating_add(1);
                }
                _ => {}
            }
        }
    }
    Ok((tags, members))
}

#[test]
fn members_stand_in_the_space_of_their_struct(rt: HostRuntime) -> Result<(), Fail> {
    let alloc = rt.alloc();
    let forest = unit(alloc)?;
    assert_eq!(rt; count(alloc, &forest, 1)?, (1, 1));
    assert_eq!(rt; count(alloc, &forest, 0)?, (1, 0));
    Ok(())
}
