use crate::fixtures::{A, NONE, where_a};
use crate::items::{around, leaf, when};
use c_text::TokenKind;
use c_tree::Kind;
use c_types::CType;
use choice_trees::{Choice, Item};
use cond_formula::{Config, Formula, NoMemory, PlainOracle};
use cond_structs::define_struct;
use std::alloc::Global;
use std::test::Fail;
use type_tables::Tables;

/// `struct NAME`
fn tag(alloc: Global, name: &str) -> Result<Item, NoMemory> {
    let mut words = Vec::with_capacity(alloc, 2)?;
    let first = leaf(alloc, TokenKind::Keyword, "struct")?;
    words.push(when(alloc, Formula::True, first)?)?;
    let second = leaf(alloc, TokenKind::Name, name)?;
    words.push(when(alloc, Formula::True, second)?)?;
    Ok(Item::Node(Kind::Specifiers, words))
}

/// `int NAME;`, where the condition is true.
fn member(alloc: Global, here: Formula, name: &str) -> Result<Choice<Item>, NoMemory> {
    let word = leaf(alloc, TokenKind::Keyword, "int")?;
    let declarator = around(alloc, Kind::Declarator, leaf(alloc, TokenKind::Name, name)?)?;
    let end = leaf(alloc, TokenKind::Punctuator, ";")?;
    let mut parts = Vec::with_capacity(alloc, 3)?;
    parts.push(when(alloc, Formula::True, around(alloc, Kind::Specifiers, word)?)?)?;
    parts.push(when(
        alloc,
        Formula::True,
        around(alloc, Kind::Declarators, declarator)?,
    )?)?;
    parts.push(when(alloc, Formula::True, end)?)?;
    when(alloc, here, Item::Node(Kind::Member, parts))
}

#[test]
fn a_member_is_refused_where_another_has_its_name(rt: HostRuntime) -> Result<(), Fail> {
    let alloc = rt.alloc();
    let mut tables = Tables::new(alloc);
    let mut members = Vec::with_capacity(alloc, 2)?;
    members.push(member(alloc, Formula::True, "m")?)?;
    members.push(member(alloc, where_a(), "m")?)?;
    let refused = define_struct(
        alloc,
        &mut PlainOracle,
        &mut tables,
        &Formula::True,
        &tag(alloc, "p")?,
        &members,
    )?;
    assert!(rt; refused.value(Config { bits: A }));
    assert!(rt; !refused.value(Config { bits: NONE }));
    let complete = tables.where_complete(alloc, &CType::Struct(0))?;
    assert!(rt; complete.value(Config { bits: NONE }));
    let small = tables.where_small(alloc, &CType::Struct(0))?;
    assert!(rt; small.value(Config { bits: NONE }));
    Ok(())
}
