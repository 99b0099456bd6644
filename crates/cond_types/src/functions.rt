//! Definitions of functions by the list that holds their one declarator (6.9.1).
ghost use Rattle.std.specs.Prelude.{◌≡◌, Bool, ◌&&◌, List, [], ◌∷◌, IsTrue, IfOk};
ghost use Rattle.cond_formula.specs.Features.{has};
ghost use Rattle.cond_formula.specs.Conditions.{condition_of, value};
ghost use Rattle.conditional.specs.Entries.{seen};
ghost use Rattle.c_tree.specs.declared.kinds.Kind.TheVariants as k;
ghost use Rattle.c_tree.specs.Trees.{PlainTrees, none};
ghost use Rattle.choice_trees.specs.ChoiceTrees.{plain_item, plain_choices, item_at, parts_at};
ghost use Rattle.choice_variants.specs.Variants.{before, shown};
ghost use Rattle.cond_units.specs.Seen.{seen_unit};
ghost use Rattle.cond_units.specs.Where.{Where};
ghost use Rattle.cond_units.specs.Items.{DeclaresItem};
ghost use Rattle.cond_types.specs.Functions.{listed_definition, IsListedDefinition};

use crate::define_function;
use crate::parts::item_in;
use c_tree::Kind;
use choice_trees::{Choice, Item};
use choice_variants::{Variant, variants};
use cond_formula::{Formula, NoMemory, Oracle};
use cond_units::UnitTables;
use conditional_steps::{both_of, never};
use reduced_conditions::either;
use std::alloc::Global;

/// What stands around the list of a definition's declarator.
#[derive(Clone, Copy)]
pub(crate) struct AroundList<'a> {
    pub(crate) words: &'a Item,
    pub(crate) body: &'a Item,
}

/// The definition of a function with the list of a variant, where the condition is true and the variant holds.
fn define_variant<O: Oracle>(
    alloc: Global,
    oracle: &mut O,
    unit: &mut UnitTables,
    when: &Formula,
    around: &AroundList<'_>,
    variant: &Variant<'_>,
) -> Result<Formula, NoMemory>
    ensures kept { O.admits oracle.new ≡ O.admits oracle.old }
    ensures declares { IfOk result (λ f. (c : List Bool) → IsTrue (value (has c) (O.admits oracle.old))
        → Where (value (has c) (condition_of when.now) && value (has c) (condition_of variant.now.when))
        (DeclaresItem (listed_definition (item_at (has c) (plain_item around.now.words.now)) (item_at (has c) (plain_item around.now.body.now)) (before (has c) variant.now.parts.items none))
        (IsListedDefinition (item_at (has c) (plain_item around.now.body.now)) (before (has c) variant.now.parts.items none)))
        (seen_unit (has c) unit.old) (seen_unit (has c) unit.new) (value (has c) (condition_of f))) }
{
    let Some(declarator) = item_in(&variant.parts, 0) else {
        return never();
    };
    let here = both_of(alloc, when, &variant.when)?;
    let refused = define_function(
        alloc,
        oracle,
        unit,
        &here,
        around.words,
        declarator,
        around.body,
    )?;
    Ok(refused)
}

/// The definition of a function, by the variants of its list, of which one holds in each configuration.
fn define_each<O: Oracle>(
    alloc: Global,
    oracle: &mut O,
    unit: &mut UnitTables,
    when: &Formula,
    around: &AroundList<'_>,
    variants: &[Variant<'_>],
) -> Result<Formula, NoMemory>
    ensures kept { O.admits oracle.new ≡ O.admits oracle.old }
    ensures declares { IfOk result (λ f. (c : List Bool) (list : PlainTrees) → IsTrue (value (has c) (O.admits oracle.old)) → seen (has c) (shown (has c) variants.now) ≡ list ∷ []
        → Where (value (has c) (condition_of when.now))
        (DeclaresItem (listed_definition (item_at (has c) (plain_item around.now.words.now)) (item_at (has c) (plain_item around.now.body.now)) list) (IsListedDefinition (item_at (has c) (plain_item around.now.body.now)) list))
        (seen_unit (has c) unit.old) (seen_unit (has c) unit.new) (value (has c) (condition_of f))) }
{
    let mut refused = never()?;
    for variant in variants {
        let found = define_variant(alloc, oracle, unit, when, around, variant)?;
        refused = either(alloc, refused, found)?;
    }
    Ok(refused)
}

/// The definition of a function with this list, where the condition is true. The answer is where it is refused.
pub(crate) fn define_listed<O: Oracle>(
    alloc: Global,
    oracle: &mut O,
    unit: &mut UnitTables,
    when: &Formula,
    around: &AroundList<'_>,
    list: &[Choice<Item>],
) -> Result<Formula, NoMemory>
    ensures kept { O.admits oracle.new ≡ O.admits oracle.old }
    ensures declares { IfOk result (λ f. (c : List Bool) → IsTrue (value (has c) (O.admits oracle.old))
        → Where (value (has c) (condition_of when.now))
        (DeclaresItem (listed_definition (item_at (has c) (plain_item around.now.words.now)) (item_at (has c) (plain_item around.now.body.now)) (parts_at (has c) k.Declarators 0 (plain_choices list.now)))
        (IsListedDefinition (item_at (has c) (plain_item around.now.body.now)) (parts_at (has c) k.Declarators 0 (plain_choices list.now))))
        (seen_unit (has c) unit.old) (seen_unit (has c) unit.new) (value (has c) (condition_of f))) }
{
    let all = variants(alloc, Kind::Declarators, list, oracle)?;
    let refused = define_each(alloc, oracle, unit, when, around, &all)?;
    Ok(refused)
}
