use crate::fixtures::{A, NONE, pointer_to, tables, where_a};
use crate::items::{leaf, when};
use c_text::TokenKind;
use c_tree::Kind;
use c_types::CType;
use choice_trees::{Choice, Item};
use cond_formula::{Config, Formula, NoMemory, PlainOracle};
use cond_initialisers::where_first_value_refused;
use std::alloc::Global;
use std::test::Fail;

fn always(alloc: Global, kind: TokenKind, text: &str) -> Result<Choice<Item>, NoMemory> {
    when(alloc, Formula::True, leaf(alloc, kind, text)?)
}

/// `0` with A, and `2` without.
fn divisor(alloc: Global) -> Result<Choice<Item>, NoMemory> {
    let mut branches = Vec::with_capacity(alloc, 2)?;
    branches.push((where_a(), leaf(alloc, TokenKind::Number, "0")?))?;
    branches.push((Formula::True, leaf(alloc, TokenKind::Number, "2")?))?;
    Ok(Choice { branches })
}

/// `1 / 2`, with A `1 / 0`.
fn quotient(alloc: Global) -> Result<Item, NoMemory> {
    let mut parts = Vec::with_capacity(alloc, 3)?;
    parts.push(always(alloc, TokenKind::Number, "1")?)?;
    parts.push(always(alloc, TokenKind::Punctuator, "/")?)?;
    parts.push(divisor(alloc)?)?;
    Ok(Item::Node(Kind::Product, parts))
}

/// `&x`
fn address(alloc: Global) -> Result<Item, NoMemory> {
    let mut parts = Vec::with_capacity(alloc, 2)?;
    parts.push(always(alloc, TokenKind::Punctuator, "&")?)?;
    parts.push(always(alloc, TokenKind::Name, "x")?)?;
    Ok(Item::Node(Kind::Prefix, parts))
}

/// `"a" "b"`
fn texts(alloc: Global) -> Result<Item, NoMemory> {
    let mut parts = Vec::with_capacity(alloc, 2)?;
    parts.push(always(alloc, TokenKind::Text, "\"a\"")?)?;
    parts.push(always(alloc, TokenKind::Text, "\"b\"")?)?;
    Ok(Item::Node(Kind::Texts, parts))
}

fn refused(alloc: Global, ty: &CType, initialiser: &Item) -> Result<Formula, NoMemory> {
    where_first_value_refused(alloc, &mut PlainOracle, &tables(alloc)?, ty, initialiser)
}

#[test]
fn a_first_value_is_a_number_that_is_defined(rt: HostRuntime) -> Result<(), Fail> {
    let alloc = rt.alloc();
    let numbers = refused(alloc, &CType::Int, &quotient(alloc)?)?;
    assert!(rt; numbers.value(Config { bits: A }));
    assert!(rt; !numbers.value(Config { bits: NONE }));
    let variables = refused(alloc, &CType::Int, &leaf(alloc, TokenKind::Name, "x")?)?;
    assert!(rt; variables.value(Config { bits: A }));
    assert!(rt; variables.value(Config { bits: NONE }));
    Ok(())
}

#[test]
fn a_first_value_is_the_address_of_a_name_or_of_texts(rt: HostRuntime) -> Result<(), Fail> {
    let alloc = rt.alloc();
    let names = refused(alloc, &pointer_to(alloc, CType::Int)?, &address(alloc)?)?;
    assert!(rt; !names.value(Config { bits: A }));
    assert!(rt; names.value(Config { bits: NONE }));
    let all = refused(alloc, &pointer_to(alloc, CType::Char)?, &texts(alloc)?)?;
    assert!(rt; !all.value(Config { bits: A }));
    let null = refused(
        alloc,
        &pointer_to(alloc, CType::Char)?,
        &leaf(alloc, TokenKind::Number, "0")?,
    )?;
    assert!(rt; !null.value(Config { bits: A }));
    Ok(())
}
