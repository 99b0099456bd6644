use crate::items::{either, leaf, when};
use c_text::TokenKind;
use c_tree::Kind;
use choice_trees::Item;
use cond_formula::{Config, Formula, NoMemory, PlainOracle};
use cond_sizes::{Count, counts, counts_by_initialiser};
use conditional::Outcomes;
use operand_rules::Refused;
use std::alloc::Global;
use std::test::Fail;

fn number(alloc: Global, text: &str) -> Result<Item, NoMemory> {
    leaf(alloc, TokenKind::Number, text)
}

fn mark(alloc: Global, text: &str) -> Result<Item, NoMemory> {
    leaf(alloc, TokenKind::Punctuator, text)
}

/// `2 + 3` where the first feature is on, and `2 + x` elsewhere.
fn size(alloc: Global) -> Result<Item, NoMemory> {
    let mut parts = Vec::with_capacity(alloc, 3)?;
    parts.push(when(alloc, Formula::True, number(alloc, "2")?)?)?;
    parts.push(when(alloc, Formula::True, mark(alloc, "+")?)?)?;
    let name = leaf(alloc, TokenKind::Name, "x")?;
    parts.push(either(alloc, number(alloc, "3")?, name)?)?;
    Ok(Item::Node(Kind::Sum, parts))
}

/// `{ 7 , 8 }`, in which `, 8` stands where the second feature is on.
fn braces(alloc: Global) -> Result<Item, NoMemory> {
    let mut entries = Vec::with_capacity(alloc, 3)?;
    entries.push(when(alloc, Formula::True, number(alloc, "7")?)?)?;
    entries.push(when(alloc, Formula::Var(1), mark(alloc, ",")?)?)?;
    entries.push(when(alloc, Formula::Var(1), number(alloc, "8")?)?)?;
    let mut parts = Vec::with_capacity(alloc, 3)?;
    parts.push(when(alloc, Formula::True, mark(alloc, "{")?)?)?;
    parts.push(when(
        alloc,
        Formula::True,
        Item::Node(Kind::Initialisers, entries),
    )?)?;
    parts.push(when(alloc, Formula::True, mark(alloc, "}")?)?)?;
    Ok(Item::Node(Kind::Braces, parts))
}

/// The count in a configuration, unless it is refused there.
fn count_at(all: &Outcomes<Count, Refused>, bits: u128) -> Option<u32> {
    for refusal in &all.refused.entries {
        if refusal.when.value(Config { bits }) {
            return None;
        }
    }
    for alternative in &all.fine.alternatives {
        if alternative.when.value(Config { bits }) {
            return Some(alternative.what.elements);
        }
    }
    None
}

#[test]
fn a_size_is_constant_where_it_has_no_name(rt: HostRuntime) -> Result<(), Fail> {
    let alloc = rt.alloc();
    let all = counts(alloc, &mut PlainOracle, &size(alloc)?)?;
    assert!(rt; count_at(&all, 1) == Some(5));
    assert!(rt; count_at(&all, 0) == None);
    Ok(())
}

#[test]
fn an_initialiser_gives_as_many_elements_as_it_has_entries(rt: HostRuntime) -> Result<(), Fail> {
    let alloc = rt.alloc();
    let all = counts_by_initialiser(alloc, &mut PlainOracle, false, &braces(alloc)?)?;
    assert!(rt; count_at(&all, 0) == Some(1));
    assert!(rt; count_at(&all, 2) == Some(2));
    let text = when(
        alloc,
        Formula::True,
        leaf(alloc, TokenKind::Text, "\"ab\"")?,
    )?;
    let texts = Item::Node(Kind::Texts, vec![in alloc; text]?);
    let all = counts_by_initialiser(alloc, &mut PlainOracle, true, &texts)?;
    assert!(rt; count_at(&all, 0) == Some(3));
    Ok(())
}
