use crate::items::{around, leaf, when};
use c_text::TokenKind;
use c_tree::Kind;
use choice_trees::{Choice, Item};
use cond_formula::{Config, Formula, NoMemory, PlainOracle};
use cond_locals::LocalDeclarations;
use cond_statements::Declarations;
use std::alloc::Global;
use std::test::Fail;
use type_tables::Tables;

fn one(alloc: Global, item: Item) -> Result<Choice<Item>, NoMemory> {
    when(alloc, Formula::True, item)
}

/// The parts of `int NAME;`.
fn declaration(alloc: Global, name: &str) -> Result<Vec<Choice<Item>>, NoMemory> {
    let words = around(
        alloc,
        Kind::Specifiers,
        leaf(alloc, TokenKind::Keyword, "int")?,
    )?;
    let declarator = around(alloc, Kind::Declarator, leaf(alloc, TokenKind::Name, name)?)?;
    let mut parts = Vec::with_capacity(alloc, 3)?;
    parts.push(one(alloc, words)?)?;
    parts.push(one(alloc, around(alloc, Kind::Declarators, declarator)?)?)?;
    parts.push(one(alloc, leaf(alloc, TokenKind::Punctuator, ";")?)?)?;
    Ok(parts)
}

/// Declares `int NAME;` where the condition is true. The answer is where it is refused.
fn declare<D: Declarations>(
    alloc: Global,
    declarations: &D,
    tables: &mut Tables,
    here: &Formula,
    name: &str,
) -> Result<Formula, NoMemory> {
    let parts = declaration(alloc, name)?;
    declarations.declare(alloc, &mut PlainOracle, tables, here, &parts)
}

#[test]
fn a_name_is_refused_where_the_block_declares_it(rt: HostRuntime) -> Result<(), Fail> {
    let alloc = rt.alloc();
    let mut tables = Tables::new(alloc);
    tables.enter()?;
    let first = declare(
        alloc,
        &LocalDeclarations,
        &mut tables,
        &Formula::Var(0),
        "x",
    )?;
    assert!(rt; !first.value(Config { bits: 1 }));
    let again = declare(
        alloc,
        &LocalDeclarations,
        &mut tables,
        &Formula::Var(1),
        "x",
    )?;
    assert!(rt; again.value(Config { bits: 3 }));
    assert!(rt; !again.value(Config { bits: 2 }));
    Ok(())
}
