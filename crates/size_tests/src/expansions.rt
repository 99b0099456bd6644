use crate::items::{either, leaf, when};
use c_text::TokenKind;
use c_tree::{Kind, Tree, spell};
use choice_expansions::{
    Expansion, PartExpansion, StepOnParts, StepOnTree, expansions, for_each_expansion,
    for_each_variant, part_expansions,
};
use choice_trees::{Choice, Item};
use choice_variants::Part;
use cond_formula::{Config, Formula, NoMemory, Oracle, PlainOracle};
use std::alloc::Global;
use std::test::Fail;

fn name(alloc: Global, text: &str) -> Result<Item, NoMemory> {
    leaf(alloc, TokenKind::Name, text)
}

/// `x` where the first feature is on and `z` elsewhere, then `y` where the second is on.
fn parts(alloc: Global) -> Result<Vec<Choice<Item>>, NoMemory> {
    let first = either(alloc, name(alloc, "x")?, name(alloc, "z")?)?;
    let mut parts = Vec::with_capacity(alloc, 2)?;
    parts.push(first)?;
    parts.push(when(alloc, Formula::Var(1), name(alloc, "y")?)?)?;
    Ok(parts)
}

/// The spellings of the trees that hold in a configuration, with a blank behind each token.
fn spelled(alloc: Global, all: &[Expansion], bits: u128) -> Result<Vec<u8>, NoMemory> {
    let mut text = Vec::new(alloc);
    for expansion in all {
        if expansion.when.value(Config { bits }) {
            for token in spell(alloc, &expansion.tree)? {
                text.extend_from_slice(&token.text)?;
                text.push(b' ')?;
            }
        }
    }
    Ok(text)
}

#[test]
fn each_configuration_has_one_expansion(rt: HostRuntime) -> Result<(), Fail> {
    let alloc = rt.alloc();
    let item = Item::Node(Kind::Declarator, parts(alloc)?);
    let all = expansions(alloc, &mut PlainOracle, &item)?;
    assert_eq!(rt; all.len(), 4);
    assert_eq!(rt; spelled(alloc, &all, 0)?.as_slice(), b"z ".as_slice());
    assert_eq!(rt; spelled(alloc, &all, 1)?.as_slice(), b"x ".as_slice());
    assert_eq!(rt; spelled(alloc, &all, 2)?.as_slice(), b"z y ".as_slice());
    assert_eq!(rt; spelled(alloc, &all, 3)?.as_slice(), b"x y ".as_slice());
    Ok(())
}

/// Whether a tree stands for the part in a configuration.
fn is_there(all: &[PartExpansion], bits: u128) -> bool {
    for expansion in all {
        if expansion.when.value(Config { bits }) {
            return expansion.tree.is_some();
        }
    }
    false
}

#[test]
fn a_part_is_nothing_where_no_alternative_holds(rt: HostRuntime) -> Result<(), Fail> {
    let alloc = rt.alloc();
    let part = when(alloc, Formula::Var(1), name(alloc, "y")?)?;
    let all = part_expansions(alloc, &mut PlainOracle, &part)?;
    assert_eq!(rt; all.len(), 2);
    assert!(rt; is_there(&all, 2));
    assert!(rt; !is_there(&all, 1));
    Ok(())
}

/// How many steps were taken.
#[derive(Drop)]
struct Steps {
    taken: usize,
}

impl StepOnTree for Steps {
    ghost Meaning = { Unit {0} };

    ghost means = { λ _ _ _. Unit {0} };

    ghost next = { λ m _. m };

    fn step<O: Oracle>(
        &mut self,
        _alloc: Global,
        _oracle: &mut O,
        _when: &Formula,
        _tree: &Tree,
    ) -> Result<(), NoMemory> {
        self.taken = self.taken.saturating_add(1);
        Ok(())
    }
}

impl StepOnParts for Steps {
    ghost Meaning = { Unit {0} };

    ghost means = { λ _ _ _. Unit {0} };

    ghost next = { λ m _. m };

    fn step<O: Oracle>(
        &mut self,
        _alloc: Global,
        _oracle: &mut O,
        _when: &Formula,
        _parts: &[Part<'_>],
    ) -> Result<(), NoMemory> {
        self.taken = self.taken.saturating_add(1);
        Ok(())
    }
}

#[test]
fn a_step_is_taken_for_each_tree_and_variant(rt: HostRuntime) -> Result<(), Fail> {
    let alloc = rt.alloc();
    let mut trees = Steps { taken: 0 };
    let item = Item::Node(Kind::Declarator, parts(alloc)?);
    for_each_expansion(alloc, &mut PlainOracle, &item, &mut trees)?;
    assert_eq!(rt; trees.taken, 4);
    let mut variants = Steps { taken: 0 };
    for_each_variant(
        alloc,
        &mut PlainOracle,
        Kind::Declarator,
        &parts(alloc)?,
        &mut variants,
    )?;
    assert_eq!(rt; variants.taken, 4);
    Ok(())
}
