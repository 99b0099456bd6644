//! Objects by their declarators (6.7.6).
ghost use Rattle.std.specs.Prelude.{◌≡◌, ℕ, Bool, ◌&&◌, List, [], ◌∷◌, IsTrue, IfOk, option_map};
ghost use Rattle.cond_formula.specs.Features.{has};
ghost use Rattle.cond_formula.specs.Conditions.{condition_of, value};
ghost use Rattle.c_text.specs.Token.{plain_token};
ghost use Rattle.c_tree.specs.Trees.{PlainTree, plain_tree};
ghost use Rattle.conditional.specs.Entries.{seen};
ghost use Rattle.choice_trees.specs.ChoiceTrees.{plain_item, item_at};
ghost use Rattle.choice_expansions.specs.Expansions.{expanded};
ghost use Rattle.plain_objects.specs.PlainStates.{plain_storage};
ghost use Rattle.conditional_steps.specs.Here.{Here};
ghost use Rattle.cond_units.specs.Seen.{seen_unit, initialiser_at};
ghost use Rattle.cond_units.specs.Declaring.{IsInitialiser, name_of, object_of_name, object_in, Declares};

use crate::following::Behind;
use crate::object_types::declare_by_types;
use crate::units::{ObjectDeclaration, UnitTables};
use c_text::Token;
use c_tree::Tree;
use choice_expansions::{Expansion, expansions};
use choice_trees::Item;
use cond_declarators::object_types;
use cond_formula::{Formula, NoMemory, Oracle};
use conditional::Outcomes;
use conditional_steps::{both_of, never, possible_both, where_refused};
use operand_rules::Refused;
use plain_declarators::name_in;
use reduced_conditions::either;
use std::alloc::Global;
use type_tables::DeclaredType;

/// The object of the name where the condition is true. The answer is where it is refused.
fn declare_named<B: Behind, O: Oracle>(
    alloc: Global,
    oracle: &mut O,
    unit: &mut UnitTables,
    when: &Formula,
    declaration: &ObjectDeclaration<'_, B>,
    base: &Outcomes<DeclaredType, Refused>,
    name: &Token,
    declarator: &Tree,
) -> Result<Formula, NoMemory>
    ensures kept { O.admits oracle.new ≡ O.admits oracle.old }
    ensures declares { IfOk result (λ f. (c : List Bool) (globals : ℕ) → IsTrue (value (has c) (O.admits oracle.old))
        → Here (value (has c) (condition_of when.now))
        (Declares (has c) base.now (object_of_name globals (plain_storage declaration.now.storage) (plain_tree declarator.now) (plain_token name.now) (initialiser_at (has c) declaration.now) (B.rest declaration.now.behind.now c))
        (IsInitialiser (initialiser_at (has c) declaration.now)))
        (seen_unit (has c) unit.old) (seen_unit (has c) unit.new) (value (has c) (condition_of f))) }
{
    let initialiser = declaration.initialiser;
    let types = object_types(alloc, oracle, &unit.tables, base, declarator, initialiser)?;
    let untyped = where_refused(alloc, &types)?;
    let no_object = possible_both(alloc, oracle, when, &untyped)?;
    let alternatives = types.fine.alternatives.as_slice();
    let refused = declare_by_types(alloc, oracle, unit, when, declaration, name, alternatives)?;
    either(alloc, no_object, refused)
}

/// The name in a declarator.
#[tactic(auto, using(c_tree::specs::TreeLaws::tree_kinds))]
fn declared_name(declarator: &Tree) -> Option<&Token>
    ensures { option_map (λ t. plain_token t.now) result ≡ name_of (plain_tree declarator.now) }
{
    match declarator {
        Tree::Leaf(_) => None,
        Tree::Node(_, parts) => name_in(parts),
    }
}

/// The object of a declarator that is one tree, where the condition is true.
fn declare_tree<B: Behind, O: Oracle>(
    alloc: Global,
    oracle: &mut O,
    unit: &mut UnitTables,
    when: &Formula,
    declaration: &ObjectDeclaration<'_, B>,
    base: &Outcomes<DeclaredType, Refused>,
    declarator: &Tree,
) -> Result<Formula, NoMemory>
    ensures kept { O.admits oracle.new ≡ O.admits oracle.old }
    ensures declares { IfOk result (λ f. (c : List Bool) (globals : ℕ) → IsTrue (value (has c) (O.admits oracle.old))
        → Here (value (has c) (condition_of when.now))
        (Declares (has c) base.now (object_in globals (plain_storage declaration.now.storage) (plain_tree declarator.now) (initialiser_at (has c) declaration.now) (B.rest declaration.now.behind.now c))
        (IsInitialiser (initialiser_at (has c) declaration.now)))
        (seen_unit (has c) unit.old) (seen_unit (has c) unit.new) (value (has c) (condition_of f))) }
{
    let Some(name) = declared_name(declarator) else {
        return when.try_clone(alloc);
    };
    declare_named(
        alloc,
        oracle,
        unit,
        when,
        declaration,
        base,
        name,
        declarator,
    )
}

/// The object of one of the trees that a declarator stands for, where the condition is true and that tree stands.
fn declare_expansion<B: Behind, O: Oracle>(
    alloc: Global,
    oracle: &mut O,
    unit: &mut UnitTables,
    when: &Formula,
    declaration: &ObjectDeclaration<'_, B>,
    base: &Outcomes<DeclaredType, Refused>,
    expansion: &Expansion,
) -> Result<Formula, NoMemory>
    ensures kept { O.admits oracle.new ≡ O.admits oracle.old }
    ensures declares { IfOk result (λ f. (c : List Bool) (globals : ℕ) → IsTrue (value (has c) (O.admits oracle.old))
        → Here (value (has c) (condition_of when.now) && value (has c) (condition_of expansion.now.when))
        (Declares (has c) base.now (object_in globals (plain_storage declaration.now.storage) (plain_tree expansion.now.tree) (initialiser_at (has c) declaration.now) (B.rest declaration.now.behind.now c))
        (IsInitialiser (initialiser_at (has c) declaration.now)))
        (seen_unit (has c) unit.old) (seen_unit (has c) unit.new) (value (has c) (condition_of f))) }
{
    let here = both_of(alloc, when, &expansion.when)?;
    let tree = &expansion.tree;
    let refused = declare_tree(alloc, oracle, unit, &here, declaration, base, tree)?;
    Ok(refused)
}

/// The object of the trees that a declarator stands for, of which one stands in each configuration.
fn declare_each<B: Behind, O: Oracle>(
    alloc: Global,
    oracle: &mut O,
    unit: &mut UnitTables,
    when: &Formula,
    declaration: &ObjectDeclaration<'_, B>,
    base: &Outcomes<DeclaredType, Refused>,
    expansions: &[Expansion],
) -> Result<Formula, NoMemory>
    ensures kept { O.admits oracle.new ≡ O.admits oracle.old }
    ensures declares { IfOk result (λ f. (c : List Bool) (globals : ℕ) (tree : PlainTree) → IsTrue (value (has c) (O.admits oracle.old)) → seen (has c) (expanded expansions.now) ≡ tree ∷ []
        → Here (value (has c) (condition_of when.now))
        (Declares (has c) base.now (object_in globals (plain_storage declaration.now.storage) tree (initialiser_at (has c) declaration.now) (B.rest declaration.now.behind.now c))
        (IsInitialiser (initialiser_at (has c) declaration.now)))
        (seen_unit (has c) unit.old) (seen_unit (has c) unit.new) (value (has c) (condition_of f))) }
{
    let mut refused = never()?;
    for expansion in expansions {
        let found = declare_expansion(alloc, oracle, unit, when, declaration, base, expansion)?;
        refused = either(alloc, refused, found)?;
    }
    Ok(refused)
}

/// The object of a declarator, where the condition is true: it is declared behind words that give this type, and defined where the declaration is
/// a definition. The answer is where it is refused.
pub fn declare_object<B: Behind, O: Oracle>(
    alloc: Global,
    oracle: &mut O,
    unit: &mut UnitTables,
    when: &Formula,
    declaration: &ObjectDeclaration<'_, B>,
    base: &Outcomes<DeclaredType, Refused>,
    declarator: &Item,
) -> Result<Formula, NoMemory>
    ensures kept { O.admits oracle.new ≡ O.admits oracle.old }
    ensures declares { IfOk result (λ f. (c : List Bool) (globals : ℕ) → IsTrue (value (has c) (O.admits oracle.old))
        → Here (value (has c) (condition_of when.now))
        (Declares (has c) base.now (object_in globals (plain_storage declaration.now.storage) (item_at (has c) (plain_item declarator.now)) (initialiser_at (has c) declaration.now) (B.rest declaration.now.behind.now c))
        (IsInitialiser (initialiser_at (has c) declaration.now)))
        (seen_unit (has c) unit.old) (seen_unit (has c) unit.new) (value (has c) (condition_of f))) }
{
    let expansions = expansions(alloc, oracle, declarator)?;
    let refused = declare_each(alloc, oracle, unit, when, declaration, base, &expansions)?;
    Ok(refused)
}
