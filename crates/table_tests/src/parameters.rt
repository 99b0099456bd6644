use crate::items::{leaf, when};
use c_text::TokenKind;
use c_tree::Kind;
use choice_trees::{Choice, Item};
use cond_formula::{Config, Formula, NoMemory, PlainOracle};
use cond_parameters::{DeclaredParameters, declare_parameters};
use std::alloc::Global;
use std::test::Fail;
use type_tables::Tables;

/// A node with one part, or with none.
pub(crate) fn around(alloc: Global, kind: Kind, part: Option<Item>) -> Result<Item, NoMemory> {
    let mut parts = Vec::with_capacity(alloc, 1)?;
    if let Some(part) = part {
        parts.push(when(alloc, Formula::True, part)?)?;
    }
    Ok(Item::Node(kind, parts))
}

/// A parameter whose words are one word.
fn parameter(alloc: Global, word: &str, declarator: Item) -> Result<Item, NoMemory> {
    let keyword = leaf(alloc, TokenKind::Keyword, word)?;
    let words = around(alloc, Kind::Specifiers, Some(keyword))?;
    let mut parts = Vec::with_capacity(alloc, 2)?;
    parts.push(when(alloc, Formula::True, words)?)?;
    parts.push(when(alloc, Formula::True, declarator)?)?;
    Ok(Item::Node(Kind::Parameter, parts))
}

/// `int NAME`
fn named(alloc: Global, name: &str) -> Result<Item, NoMemory> {
    let name = leaf(alloc, TokenKind::Name, name)?;
    let declarator = around(alloc, Kind::Declarator, Some(name))?;
    parameter(alloc, "int", declarator)
}

/// `void`
fn void(alloc: Global) -> Result<Item, NoMemory> {
    let absent = around(alloc, Kind::Absent, None)?;
    parameter(alloc, "void", absent)
}

/// With A the one item, with B the other, and a comma between both.
fn list(alloc: Global, first: Item, second: Item) -> Result<Item, NoMemory> {
    let comma = leaf(alloc, TokenKind::Punctuator, ",")?;
    let both = Formula::and(alloc, Formula::Var(0), Formula::Var(1))?;
    let mut parts: Vec<Choice<Item>> = Vec::with_capacity(alloc, 3)?;
    parts.push(when(alloc, Formula::Var(0), first)?)?;
    parts.push(when(alloc, both, comma)?)?;
    parts.push(when(alloc, Formula::Var(1), second)?)?;
    Ok(Item::Node(Kind::Parameters, parts))
}

fn declared(alloc: Global, list: &Item) -> Result<DeclaredParameters, NoMemory> {
    let mut tables = Tables::new(alloc);
    tables.enter()?;
    declare_parameters(
        alloc,
        &mut PlainOracle,
        &mut tables,
        true,
        &Formula::True,
        list,
    )
}

/// How many parameters there are in a configuration.
fn count_at(all: &DeclaredParameters, bits: u128) -> usize {
    let mut count = 0;
    for entry in &all.types.entries {
        if entry.when.value(Config { bits }) && count < 2 {
            count += 1;
        }
    }
    count
}

#[test]
fn a_parameter_is_declared_where_it_is_there(rt: HostRuntime) -> Result<(), Fail> {
    let alloc = rt.alloc();
    let all = declared(alloc, &list(alloc, named(alloc, "x")?, named(alloc, "y")?)?)?;
    assert!(rt; count_at(&all, 1) == 1);
    assert!(rt; count_at(&all, 3) == 2);
    assert!(rt; !all.refused.value(Config { bits: 3 }));
    Ok(())
}

#[test]
fn a_name_is_refused_where_a_parameter_has_it(rt: HostRuntime) -> Result<(), Fail> {
    let alloc = rt.alloc();
    let all = declared(alloc, &list(alloc, named(alloc, "x")?, named(alloc, "x")?)?)?;
    assert!(rt; all.refused.value(Config { bits: 3 }));
    assert!(rt; !all.refused.value(Config { bits: 2 }));
    Ok(())
}

#[test]
fn void_stands_alone_for_no_parameter(rt: HostRuntime) -> Result<(), Fail> {
    let alloc = rt.alloc();
    let all = declared(alloc, &list(alloc, void(alloc)?, named(alloc, "x")?)?)?;
    assert!(rt; !all.refused.value(Config { bits: 1 }));
    assert!(rt; count_at(&all, 1) == 0);
    assert!(rt; all.refused.value(Config { bits: 3 }));
    assert!(rt; count_at(&all, 2) == 1);
    Ok(())
}
