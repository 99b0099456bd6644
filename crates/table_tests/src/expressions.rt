use crate::fixtures::{
    A, A_AND_B, B, NONE, is_of, operand_at, pointer_to, tables, where_a, where_b,
};
use crate::items::{leaf, when};
use c_text::TokenKind;
use c_tree::Kind;
use c_types::CType;
use choice_trees::{Choice, Item};
use cond_formula::{Config, Formula, NoMemory, PlainOracle};
use cond_operands::Operands;
use cond_selections::{Selection, push_selections};
use cond_typing::read_expression;
use conditional::CondList;
use known_tables::Visible;
use std::alloc::Global;
use std::test::Fail;
use type_tables::Tables;

fn always(alloc: Global, item: Item) -> Result<Choice<Item>, NoMemory> {
    when(alloc, Formula::True, item)
}

fn name(alloc: Global, text: &str) -> Result<Choice<Item>, NoMemory> {
    always(alloc, leaf(alloc, TokenKind::Name, text)?)
}

fn mark(alloc: Global, text: &str) -> Result<Choice<Item>, NoMemory> {
    always(alloc, leaf(alloc, TokenKind::Punctuator, text)?)
}

fn typed(alloc: Global, tables: &Tables, item: &Item) -> Result<Operands, NoMemory> {
    let read = read_expression(alloc, &Visible { tables }, &mut PlainOracle, item)?;
    Ok(read.outcomes)
}

/// `x + 1`
fn sum(alloc: Global) -> Result<Item, NoMemory> {
    let mut parts = Vec::with_capacity(alloc, 3)?;
    parts.push(name(alloc, "x")?)?;
    parts.push(mark(alloc, "+")?)?;
    parts.push(always(alloc, leaf(alloc, TokenKind::Number, "1")?)?)?;
    Ok(Item::Node(Kind::Sum, parts))
}

#[test]
fn a_sum_has_the_type_of_its_operands(rt: HostRuntime) -> Result<(), Fail> {
    let alloc = rt.alloc();
    let mut tables = tables(alloc)?;
    tables.enter()?;
    tables.declare_local(alloc, b"x", where_b(), pointer_to(alloc, CType::Int)?)?;
    let all = typed(alloc, &tables, &sum(alloc)?)?;
    assert!(rt; is_of(operand_at(&all, A), &CType::Int));
    assert!(rt; is_of(operand_at(&all, NONE), &CType::Long));
    assert!(rt; is_of(operand_at(&all, B), &pointer_to(alloc, CType::Int)?));
    Ok(())
}

/// `s.m`
fn selection(alloc: Global) -> Result<Item, NoMemory> {
    let mut parts = Vec::with_capacity(alloc, 3)?;
    parts.push(name(alloc, "s")?)?;
    parts.push(mark(alloc, ".")?)?;
    parts.push(name(alloc, "m")?)?;
    Ok(Item::Node(Kind::Selection, parts))
}

#[test]
fn a_member_is_selected_where_its_struct_is_complete(rt: HostRuntime) -> Result<(), Fail> {
    let alloc = rt.alloc();
    let tables = tables(alloc)?;
    let all = typed(alloc, &tables, &selection(alloc)?)?;
    assert!(rt; is_of(operand_at(&all, A), &CType::Int));
    assert!(rt; is_of(operand_at(&all, A_AND_B), &CType::Char));
    assert!(rt; operand_at(&all, NONE).is_none());
    Ok(())
}

/// The struct in which the first selection of a configuration selects.
fn structure_at(log: &CondList<Selection>, bits: u128) -> Option<u32> {
    for entry in &log.entries {
        if entry.when.value(Config { bits }) {
            return Some(entry.what.structure);
        }
    }
    None
}

fn is_number(found: Option<u32>, number: u32) -> bool {
    match found {
        Some(n) => n == number,
        None => false,
    }
}

#[test]
fn a_selection_is_noted_with_its_struct(rt: HostRuntime) -> Result<(), Fail> {
    let alloc = rt.alloc();
    let mut tables = tables(alloc)?;
    tables.enter()?;
    tables.declare_local(alloc, b"s", where_b(), CType::Struct(1))?;
    let known = Visible { tables: &tables };
    let mut log = CondList::empty(alloc);
    let item = selection(alloc)?;
    push_selections(alloc, &known, &mut PlainOracle, &where_a(), &item, &mut log)?;
    assert!(rt; is_number(structure_at(&log, A), 0));
    assert!(rt; is_number(structure_at(&log, A_AND_B), 1));
    assert!(rt; structure_at(&log, B).is_none());
    Ok(())
}

/// `f(x)`
fn call(alloc: Global) -> Result<Item, NoMemory> {
    let mut arguments = Vec::with_capacity(alloc, 1)?;
    arguments.push(name(alloc, "x")?)?;
    let mut parts = Vec::with_capacity(alloc, 4)?;
    parts.push(name(alloc, "f")?)?;
    parts.push(mark(alloc, "(")?)?;
    parts.push(always(alloc, Item::Node(Kind::Arguments, arguments))?)?;
    parts.push(mark(alloc, ")")?)?;
    Ok(Item::Node(Kind::Call, parts))
}

#[test]
fn a_call_has_the_type_of_the_result_where_arguments_fit(rt: HostRuntime) -> Result<(), Fail> {
    let alloc = rt.alloc();
    let tables = tables(alloc)?;
    let all = typed(alloc, &tables, &call(alloc)?)?;
    assert!(rt; is_of(operand_at(&all, NONE), &CType::Int));
    assert!(rt; operand_at(&all, A).is_none());
    Ok(())
}
