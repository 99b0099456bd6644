//! Locals by their declarators (6.7.6).
ghost use Rattle.std.specs.Prelude.{◌≡◌, Bool, true, ◌&&◌, List, [], ◌∷◌, IsTrue, IfOk, OnOk, option_map};
ghost use Rattle.cond_formula.specs.Features.{has};
ghost use Rattle.cond_formula.specs.Conditions.{condition_of, value};
ghost use Rattle.c_text.specs.Token.{plain_token};
ghost use Rattle.c_tree.specs.Trees.{PlainTree, plain_tree};
ghost use Rattle.conditional.specs.Entries.{seen};
ghost use Rattle.choice_trees.specs.ChoiceTrees.{plain_item, item_at};
ghost use Rattle.choice_expansions.specs.Expansions.{expanded};
ghost use Rattle.core_meaning.specs.Declarations.{is_new_local, one_local};
ghost use Rattle.type_tables.specs.Seen.{seen_tables};
ghost use Rattle.type_tables.specs.Blocks.{OnlyLocals};
ghost use Rattle.conditional_steps.specs.Here.{Here};
ghost use Rattle.cond_locals.specs.Declaring.{IsInitialiser, Declares, local_in, name_of};

use crate::types::declare_by_types;
use c_text::Token;
use c_tree::Tree;
use choice_expansions::{Expansion, expansions};
use choice_trees::Item;
use cond_declarators::object_types;
use cond_formula::{Formula, NoMemory, Oracle};
use conditional::Outcomes;
use conditional_steps::{both_of, never, possible_both, where_refused};
use operand_rules::Refused;
use plain_declarators::name_in;
use reduced_conditions::either;
use std::alloc::Global;
use type_tables::{DeclaredType, Tables};

/// A local of the name where the condition is true, if the innermost block doesn't declare the name there. The answer is where it is refused.
fn declare_new<O: Oracle>(
    alloc: Global,
    oracle: &mut O,
    tables: &mut Tables,
    when: &Formula,
    base: &Outcomes<DeclaredType, Refused>,
    name: &Token,
    declarator: &Tree,
    initialiser: Option<&Item>,
) -> Result<Formula, NoMemory>
    ensures kept { O.admits oracle.new ≡ O.admits oracle.old }
    ensures outside { OnOk result (OnlyLocals tables.old tables.new) }
    ensures declares { IfOk result (λ f. (c : List Bool) → IsTrue (value (has c) (O.admits oracle.old))
        → Here (value (has c) (condition_of when.now))
        (Declares (has c) base.now (λ scope slots ty. local_in scope slots ty (plain_tree declarator.now) (plain_token name.now) (option_map (λ item. item_at (has c) (plain_item item.now)) initialiser.entry))
        (λ scope. (is_new_local scope name.now.text.items ≡ true) × IsInitialiser (option_map (λ item. item_at (has c) (plain_item item.now)) initialiser.entry)))
        (seen_tables (has c) tables.old) (seen_tables (has c) tables.new) (value (has c) (condition_of f))) }
{
    let types = object_types(alloc, oracle, tables, base, declarator, initialiser)?;
    let untyped = where_refused(alloc, &types)?;
    let no_object = possible_both(alloc, oracle, when, &untyped)?;
    let refused = declare_by_types(
        alloc,
        oracle,
        tables,
        when,
        name,
        &types.fine.alternatives,
        initialiser,
    )?;
    either(alloc, no_object, refused)
}

/// A local of the name where the condition is true. The answer is where it is refused.
fn declare_named<O: Oracle>(
    alloc: Global,
    oracle: &mut O,
    tables: &mut Tables,
    when: &Formula,
    base: &Outcomes<DeclaredType, Refused>,
    name: &Token,
    declarator: &Tree,
    initialiser: Option<&Item>,
) -> Result<Formula, NoMemory>
    ensures kept { O.admits oracle.new ≡ O.admits oracle.old }
    ensures outside { OnOk result (OnlyLocals tables.old tables.new) }
    ensures declares { IfOk result (λ f. (c : List Bool) → IsTrue (value (has c) (O.admits oracle.old))
        → Here (value (has c) (condition_of when.now))
        (Declares (has c) base.now (λ scope slots ty. local_in scope slots ty (plain_tree declarator.now) (plain_token name.now) (option_map (λ item. item_at (has c) (plain_item item.now)) initialiser.entry))
        (λ scope. IsInitialiser (option_map (λ item. item_at (has c) (plain_item item.now)) initialiser.entry)))
        (seen_tables (has c) tables.old) (seen_tables (has c) tables.new) (value (has c) (condition_of f))) }
{
    let known = tables.where_local(alloc, &name.text)?;
    let again = possible_both(alloc, oracle, when, &known)?;
    let refused = declare_new(
        alloc,
        oracle,
        tables,
        when,
        base,
        name,
        declarator,
        initialiser,
    )?;
    either(alloc, again, refused)
}

/// The name in a declarator.
#[tactic(auto, using(c_tree::specs::TreeLaws::tree_kinds))]
fn declared_name(declarator: &Tree) -> Option<&Token>
    ensures { option_map (λ t. plain_token t.now) result ≡ name_of (plain_tree declarator.now) }
{
    match declarator {
        Tree::Leaf(_) => None,
        Tree::Node(_, parts) => name_in(parts),
    }
}

/// The local of a declarator that is one tree, where the condition is true.
fn declare_tree<O: Oracle>(
    alloc: Global,
    oracle: &mut O,
    tables: &mut Tables,
    when: &Formula,
    base: &Outcomes<DeclaredType, Refused>,
    declarator: &Tree,
    initialiser: Option<&Item>,
) -> Result<Formula, NoMemory>
    ensures kept { O.admits oracle.new ≡ O.admits oracle.old }
    ensures outside { OnOk result (OnlyLocals tables.old tables.new) }
    ensures declares { IfOk result (λ f. (c : List Bool) → IsTrue (value (has c) (O.admits oracle.old))
        → Here (value (has c) (condition_of when.now))
        (Declares (has c) base.now (λ scope slots ty. one_local scope slots ty (plain_tree declarator.now) (option_map (λ item. item_at (has c) (plain_item item.now)) initialiser.entry))
        (λ scope. IsInitialiser (option_map (λ item. item_at (has c) (plain_item item.now)) initialiser.entry)))
        (seen_tables (has c) tables.old) (seen_tables (has c) tables.new) (value (has c) (condition_of f))) }
{
    let Some(name) = declared_name(declarator) else {
        return when.try_clone(alloc);
    };
    declare_named(
        alloc,
        oracle,
        tables,
        when,
        base,
        name,
        declarator,
        initialiser,
    )
}

/// The local of one of the trees that a declarator stands for, where the condition is true and that tree stands.
fn declare_expansion<O: Oracle>(
    alloc: Global,
    oracle: &mut O,
    tables: &mut Tables,
    when: &Formula,
    base: &Outcomes<DeclaredType, Refused>,
    expansion: &Expansion,
    initialiser: Option<&Item>,
) -> Result<Formula, NoMemory>
    ensures kept { O.admits oracle.new ≡ O.admits oracle.old }
    ensures outside { OnOk result (OnlyLocals tables.old tables.new) }
    ensures declares { IfOk result (λ f. (c : List Bool) → IsTrue (value (has c) (O.admits oracle.old))
        → Here (value (has c) (condition_of when.now) && value (has c) (condition_of expansion.now.when))
        (Declares (has c) base.now (λ scope slots ty. one_local scope slots ty (plain_tree expansion.now.tree) (option_map (λ item. item_at (has c) (plain_item item.now)) initialiser.entry))
        (λ scope. IsInitialiser (option_map (λ item. item_at (has c) (plain_item item.now)) initialiser.entry)))
        (seen_tables (has c) tables.old) (seen_tables (has c) tables.new) (value (has c) (condition_of f))) }
{
    let here = both_of(alloc, when, &expansion.when)?;
    let refused = declare_tree(
        alloc,
        oracle,
        tables,
        &here,
        base,
        &expansion.tree,
        initialiser,
    )?;
    Ok(refused)
}

/// The local of the trees that a declarator stands for, of which one stands in each configuration.
fn declare_each<O: Oracle>(
    alloc: Global,
    oracle: &mut O,
    tables: &mut Tables,
    when: &Formula,
    base: &Outcomes<DeclaredType, Refused>,
    expansions: &[Expansion],
    initialiser: Option<&Item>,
) -> Result<Formula, NoMemory>
    ensures kept { O.admits oracle.new ≡ O.admits oracle.old }
    ensures outside { OnOk result (OnlyLocals tables.old tables.new) }
    ensures declares { IfOk result (λ f. (c : List Bool) (tree : PlainTree) → IsTrue (value (has c) (O.admits oracle.old)) → seen (has c) (expanded expansions.now) ≡ tree ∷ []
        → Here (value (has c) (condition_of when.now))
        (Declares (has c) base.now (λ scope slots ty. one_local scope slots ty tree (option_map (λ item. item_at (has c) (plain_item item.now)) initialiser.entry))
        (λ scope. IsInitialiser (option_map (λ item. item_at (has c) (plain_item item.now)) initialiser.entry)))
        (seen_tables (has c) tables.old) (seen_tables (has c) tables.new) (value (has c) (condition_of f))) }
{
    let mut refused = never()?;
    for expansion in expansions {
        let found = declare_expansion(alloc, oracle, tables, when, base, expansion, initialiser)?;
        refused = either(alloc, refused, found)?;
    }
    Ok(refused)
}

/// The local of a declarator, where the condition is true. The answer is where it is refused.
pub fn declare_local<O: Oracle>(
    alloc: Global,
    oracle: &mut O,
    tables: &mut Tables,
    when: &Formula,
    base: &Outcomes<DeclaredType, Refused>,
    declarator: &Item,
    initialiser: Option<&Item>,
) -> Result<Formula, NoMemory>
    ensures kept { O.admits oracle.new ≡ O.admits oracle.old }
    ensures outside { OnOk result (OnlyLocals tables.old tables.new) }
    ensures declares { IfOk result (λ f. (c : List Bool) → IsTrue (value (has c) (O.admits oracle.old))
        → Here (value (has c) (condition_of when.now))
        (Declares (has c) base.now (λ scope slots ty. one_local scope slots ty (item_at (has c) (plain_item declarator.now)) (option_map (λ item. item_at (has c) (plain_item item.now)) initialiser.entry))
        (λ scope. IsInitialiser (option_map (λ item. item_at (has c) (plain_item item.now)) initialiser.entry)))
        (seen_tables (has c) tables.old) (seen_tables (has c) tables.new) (value (has c) (condition_of f))) }
{
    let expansions = expansions(alloc, oracle, declarator)?;
    let refused = declare_each(alloc, oracle, tables, when, base, &expansions, initialiser)?;
    Ok(refused)
}
