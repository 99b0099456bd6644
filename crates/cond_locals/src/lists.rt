//! Lists of declarators, one after the other (6.7).
ghost use Rattle.std.specs.Prelude.{◌≡◌, Bool, true, false, ◌&&◌, List, IsTrue, IfOk, OnOk, option_map};
ghost use Rattle.cond_formula.specs.Features.{has};
ghost use Rattle.cond_formula.specs.Conditions.{condition_of, value};
ghost use Rattle.conditional.specs.Entries.{seen};
ghost use Rattle.c_tree.specs.declared.kinds.Kind.TheVariants as k;
ghost use Rattle.c_tree.specs.Trees.{PlainTrees, node};
ghost use Rattle.c_tree.specs.Grammar.{local};
ghost use Rattle.tree_derivations.specs.Derivations.{Declared};
ghost use Rattle.choice_trees.specs.ChoiceTrees.{plain_item, plain_choices, item_at, parts_at};
ghost use Rattle.core_meaning.specs.Declarations.{one_local, locals_from};
ghost use Rattle.declarator_lists.specs.Lists.{declared_in, trees_of};
ghost use Rattle.declarator_lists.specs.Entries.{listed_at};
ghost use Rattle.type_tables.specs.Seen.{seen_tables};
ghost use Rattle.type_tables.specs.Blocks.{OnlyLocals};
ghost use Rattle.conditional_steps.specs.Here.{Here};
ghost use Rattle.cond_locals.specs.Declaring.{IsInitialiser, Declares};

use crate::declarators::declare_local;
use choice_trees::{Choice, Item};
use cond_formula::{Formula, NoMemory, Oracle};
use conditional::Outcomes;
use conditional_steps::{both_of, never};
use declarator_lists::{ListedDeclarator, listed_declarators};
use operand_rules::Refused;
use reduced_conditions::either;
use std::alloc::Global;
use type_tables::{DeclaredType, Tables};

/// The local of a declarator of a list, where the condition is true and it is there.
fn declare_listed<O: Oracle>(
    alloc: Global,
    oracle: &mut O,
    tables: &mut Tables,
    when: &Formula,
    base: &Outcomes<DeclaredType, Refused>,
    listed: &ListedDeclarator<'_>,
) -> Result<Formula, NoMemory>
    ensures kept { O.admits oracle.new ≡ O.admits oracle.old }
    ensures outside { OnOk result (OnlyLocals tables.old tables.new) }
    ensures declares { IfOk result (λ f. (c : List Bool) → IsTrue (value (has c) (O.admits oracle.old))
        → Here (value (has c) (condition_of when.now) && value (has c) (condition_of listed.now.when))
        (Declares (has c) base.now (λ scope slots ty. one_local scope slots ty (item_at (has c) (plain_item listed.now.declarator.now)) (option_map (λ item. item_at (has c) (plain_item item.now)) listed.now.initialiser))
        (λ scope. IsInitialiser (option_map (λ item. item_at (has c) (plain_item item.now)) listed.now.initialiser)))
        (seen_tables (has c) tables.old) (seen_tables (has c) tables.new) (value (has c) (condition_of f))) }
{
    let here = both_of(alloc, when, &listed.when)?;
    let refused = declare_local(
        alloc,
        oracle,
        tables,
        &here,
        base,
        listed.declarator,
        listed.initialiser,
    )?;
    Ok(refused)
}

/// The locals of the declarators of a list, one after the other.
fn declare_each<O: Oracle>(
    alloc: Global,
    oracle: &mut O,
    tables: &mut Tables,
    when: &Formula,
    base: &Outcomes<DeclaredType, Refused>,
    all: &[ListedDeclarator<'_>],
) -> Result<Formula, NoMemory>
    ensures kept { O.admits oracle.new ≡ O.admits oracle.old }
    ensures outside { OnOk result (OnlyLocals tables.old tables.new) }
    ensures declares { IfOk result (λ f. (c : List Bool) (list : PlainTrees) → IsTrue (value (has c) (O.admits oracle.old)) → seen (has c) (listed_at (has c) all.now) ≡ declared_in (trees_of list)
        → Here (value (has c) (condition_of when.now)) (Declares (has c) base.now (λ scope slots ty. locals_from scope slots ty list) (λ scope. Declared local list))
        (seen_tables (has c) tables.old) (seen_tables (has c) tables.new) (value (has c) (condition_of f))) }
{
    let mut refused = never()?;
    for listed in all {
        let found = declare_listed(alloc, oracle, tables, when, base, listed)?;
        refused = either(alloc, refused, found)?;
    }
    Ok(refused)
}

/// The locals of the parts of a list of declarators.
fn declare_parts<O: Oracle>(
    alloc: Global,
    oracle: &mut O,
    tables: &mut Tables,
    when: &Formula,
    base: &Outcomes<DeclaredType, Refused>,
    parts: &[Choice<Item>],
) -> Result<Formula, NoMemory>
    ensures kept { O.admits oracle.new ≡ O.admits oracle.old }
    ensures outside { OnOk result (OnlyLocals tables.old tables.new) }
    ensures declares { IfOk result (λ f. (c : List Bool) → IsTrue (value (has c) (O.admits oracle.old))
        → Here (value (has c) (condition_of when.now))
        (Declares (has c) base.now (λ scope slots ty. locals_from scope slots ty (parts_at (has c) k.Declarators 0 (plain_choices parts.now))) (λ scope. Declared local (parts_at (has c) k.Declarators 0 (plain_choices parts.now))))
        (seen_tables (has c) tables.old) (seen_tables (has c) tables.new) (value (has c) (condition_of f))) }
{
    let all = listed_declarators(alloc, oracle, parts)?;
    let refused = declare_each(alloc, oracle, tables, when, base, &all)?;
    Ok(refused)
}

/// The locals of a list of declarators, where the condition is true. The answer is where one is refused.
#[tactic(auto, using(choice_trees::specs::ItemLaws::item_kinds))]
pub(crate) fn declare_list<O: Oracle>(
    alloc: Global,
    oracle: &mut O,
    tables: &mut Tables,
    when: &Formula,
    base: &Outcomes<DeclaredType, Refused>,
    list: &Item,
) -> Result<Formula, NoMemory>
    ensures kept { O.admits oracle.new ≡ O.admits oracle.old }
    ensures outside { OnOk result (OnlyLocals tables.old tables.new) }
    ensures elsewhere { IfOk result (λ f. (c : List Bool) → IsTrue (value (has c) (O.admits oracle.old)) → value (has c) (condition_of when.now) ≡ false
        → (seen_tables (has c) tables.new ≡ seen_tables (has c) tables.old) × (value (has c) (condition_of f) ≡ false)) }
    ensures declares { IfOk result (λ f. (c : List Bool) (parts : PlainTrees) → IsTrue (value (has c) (O.admits oracle.old)) → value (has c) (condition_of when.now) ≡ true
        → item_at (has c) (plain_item list.now) ≡ node k.Declarators parts
        → Declares (has c) base.now (λ scope slots ty. locals_from scope slots ty parts) (λ scope. Declared local parts)
        (seen_tables (has c) tables.old) (seen_tables (has c) tables.new) (value (has c) (condition_of f))) }
{
    match list {
        Item::Leaf(..) => never(),
        Item::Node(_, parts) => declare_parts(alloc, oracle, tables, when, base, parts),
    }
}
