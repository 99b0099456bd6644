//! Declarations among statements (6.7, 6.8.2).
ghost use Rattle.std.specs.Prelude.{◌≡◌, Bool, ◌&&◌, List, [], ◌∷◌, IsTrue, IfOk, OnOk};
ghost use Rattle.cond_formula.specs.Features.{has};
ghost use Rattle.cond_formula.specs.Conditions.{condition_of, value};
ghost use Rattle.c_tree.specs.Trees.{PlainTree, PlainTrees, none, more};
ghost use Rattle.conditional.specs.Entries.{seen};
ghost use Rattle.choice_trees.specs.ChoiceTrees.{plain_item, item_at};
ghost use Rattle.choice_variants.specs.Variants.{part_at, before, shown};
ghost use Rattle.type_tables.specs.Seen.{seen_tables};
ghost use Rattle.type_tables.specs.Blocks.{OnlyLocals};
ghost use Rattle.conditional_steps.specs.Here.{Here};
ghost use Rattle.cond_locals.specs.Declaring.{DeclaresLocals};

use crate::lists::declare_list;
use c_tree::Kind;
use choice_trees::{Choice, Item};
use choice_variants::{Part, Variant, variants};
use cond_declarators::base_of;
use cond_formula::{Formula, NoMemory, Oracle};
use cond_statements::Declarations;
use conditional_steps::{both_of, never, possible_both, where_refused};
use reduced_conditions::either;
use std::alloc::Global;
use type_tables::Tables;

/// The locals of a declaration with these words and this list of declarators, where the condition is true. The answer is where it is refused.
fn declare_words<O: Oracle>(
    alloc: Global,
    oracle: &mut O,
    tables: &mut Tables,
    when: &Formula,
    words: &Item,
    list: &Item,
) -> Result<Formula, NoMemory>
    ensures kept { O.admits oracle.new ≡ O.admits oracle.old }
    ensures outside { OnOk result (OnlyLocals tables.old tables.new) }
    ensures declares { IfOk result (λ f. (c : List Bool) (end : PlainTree) → IsTrue (value (has c) (O.admits oracle.old))
        → Here (value (has c) (condition_of when.now)) (DeclaresLocals (more (item_at (has c) (plain_item words.now)) (more (item_at (has c) (plain_item list.now)) (more end none))))
        (seen_tables (has c) tables.old) (seen_tables (has c) tables.new) (value (has c) (condition_of f))) }
{
    let base = base_of(alloc, oracle, tables, words)?;
    let unnamed = where_refused(alloc, &base)?;
    let no_type = possible_both(alloc, oracle, when, &unnamed)?;
    let refused = declare_list(alloc, oracle, tables, when, &base, list)?;
    either(alloc, no_type, refused)
}

/// The locals of a declaration with these words, by what stands for its list.
fn declare_behind<O: Oracle>(
    alloc: Global,
    oracle: &mut O,
    tables: &mut Tables,
    when: &Formula,
    words: &Item,
    list: &Part<'_>,
) -> Result<Formula, NoMemory>
    ensures kept { O.admits oracle.new ≡ O.admits oracle.old }
    ensures outside { OnOk result (OnlyLocals tables.old tables.new) }
    ensures declares { IfOk result (λ f. (c : List Bool) (end : PlainTree) → IsTrue (value (has c) (O.admits oracle.old))
        → Here (value (has c) (condition_of when.now)) (DeclaresLocals (more (item_at (has c) (plain_item words.now)) (more (part_at (has c) list.now) (more end none))))
        (seen_tables (has c) tables.old) (seen_tables (has c) tables.new) (value (has c) (condition_of f))) }
{
    match list {
        Part::Item(list) => declare_words(alloc, oracle, tables, when, words, list),
        Part::NoStatement => never(),
    }
}

/// The locals of a declaration, by what stands for its words and its list.
fn declare_two<O: Oracle>(
    alloc: Global,
    oracle: &mut O,
    tables: &mut Tables,
    when: &Formula,
    words: &Part<'_>,
    list: &Part<'_>,
) -> Result<Formula, NoMemory>
    ensures kept { O.admits oracle.new ≡ O.admits oracle.old }
    ensures outside { OnOk result (OnlyLocals tables.old tables.new) }
    ensures declares { IfOk result (λ f. (c : List Bool) (end : PlainTree) → IsTrue (value (has c) (O.admits oracle.old))
        → Here (value (has c) (condition_of when.now)) (DeclaresLocals (more (part_at (has c) words.now) (more (part_at (has c) list.now) (more end none))))
        (seen_tables (has c) tables.old) (seen_tables (has c) tables.new) (value (has c) (condition_of f))) }
{
    match words {
        Part::Item(words) => declare_behind(alloc, oracle, tables, when, words, list),
        Part::NoStatement => never(),
    }
}

/// The locals of a declaration with the parts of a variant, where the condition is true and the variant holds.
fn declare_variant<O: Oracle>(
    alloc: Global,
    oracle: &mut O,
    tables: &mut Tables,
    when: &Formula,
    variant: &Variant<'_>,
) -> Result<Formula, NoMemory>
    ensures kept { O.admits oracle.new ≡ O.admits oracle.old }
    ensures outside { OnOk result (OnlyLocals tables.old tables.new) }
    ensures declares { IfOk result (λ f. (c : List Bool) → IsTrue (value (has c) (O.admits oracle.old))
        → Here (value (has c) (condition_of when.now) && value (has c) (condition_of variant.now.when)) (DeclaresLocals (before (has c) variant.now.parts.items none))
        (seen_tables (has c) tables.old) (seen_tables (has c) tables.new) (value (has c) (condition_of f))) }
{
    if variant.parts.len() != 3 {
        return never();
    }
    let here = both_of(alloc, when, &variant.when)?;
    let words = &variant.parts[0];
    let list = &variant.parts[1];
    let refused = declare_two(alloc, oracle, tables, &here, words, list)?;
    Ok(refused)
}

/// The locals of a declaration, by the variants of its parts, of which one holds in each configuration.
fn declare_each<O: Oracle>(
    alloc: Global,
    oracle: &mut O,
    tables: &mut Tables,
    when: &Formula,
    variants: &[Variant<'_>],
) -> Result<Formula, NoMemory>
    ensures kept { O.admits oracle.new ≡ O.admits oracle.old }
    ensures outside { OnOk result (OnlyLocals tables.old tables.new) }
    ensures declares { IfOk result (λ f. (c : List Bool) (parts : PlainTrees) → IsTrue (value (has c) (O.admits oracle.old)) → seen (has c) (shown (has c) variants.now) ≡ parts ∷ []
        → Here (value (has c) (condition_of when.now)) (DeclaresLocals parts) (seen_tables (has c) tables.old) (seen_tables (has c) tables.new) (value (has c) (condition_of f))) }
{
    let mut refused = never()?;
    for variant in variants {
        let found = declare_variant(alloc, oracle, tables, when, variant)?;
        refused = either(alloc, refused, found)?;
    }
    Ok(refused)
}

/// The declarations of locals by the tables.
#[derive(Clone, Copy, Debug)]
pub struct LocalDeclarations;

impl Declarations for LocalDeclarations {
    fn declare<O: Oracle>(
        &self,
        alloc: Global,
        oracle: &mut O,
        tables: &mut Tables,
        when: &Formula,
        parts: &[Choice<Item>],
    ) -> Result<Formula, NoMemory> {
        let all = variants(alloc, Kind::LocalDeclaration, parts, oracle)?;
        let refused = declare_each(alloc, oracle, tables, when, &all)?;
        Ok(refused)
    }
}
