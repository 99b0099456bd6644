//! The names of the declarators of a declaration at file scope, one after the other (6.7).
ghost use Rattle.std.specs.Prelude.{◌≡◌, ℕ, Bool, true, false, ◌&&◌, List, IsTrue, IfOk, option_map};
ghost use Rattle.cond_formula.specs.Features.{has};
ghost use Rattle.cond_formula.specs.Conditions.{condition_of, value};
ghost use Rattle.conditional.specs.Entries.{seen};
ghost use Rattle.c_tree.specs.declared.kinds.Kind.TheVariants as k;
ghost use Rattle.c_tree.specs.Trees.{PlainTrees};
ghost use Rattle.c_tree.specs.Grammar.{Role};
ghost use Rattle.tree_derivations.specs.Derivations.{Declared};
ghost use Rattle.choice_trees.specs.ChoiceTrees.{plain_item, plain_choices, item_at, parts_at};
ghost use Rattle.declarator_lists.specs.Lists.{declared, declared_in, trees_of};
ghost use Rattle.declarator_lists.specs.Entries.{declarator_at, listed_at};
ghost use Rattle.plain_objects.specs.PlainStates.{plain_storage};
ghost use Rattle.cond_units.specs.Seen.{seen_unit};
ghost use Rattle.cond_units.specs.Declaring.{Declares};
ghost use Rattle.cond_units.specs.Names as spec;
ghost use Rattle.cond_units.specs.Where.{Where};
ghost use Rattle.cond_units.specs.Names.{IsReady, one_name, all_names};

use crate::{Behind, ObjectDeclaration, UnitTables, declare_function, declare_object};
use c_tree::Kind;
use choice_trees::{Choice, Item};
use cond_formula::{Formula, NoMemory, Oracle};
use conditional::Outcomes;
use conditional_steps::{both_of, never};
use declarator_lists::{ListedDeclarator, listed_declarators};
use operand_rules::Refused;
use plain_objects::Storage;
use reduced_conditions::either;
use std::alloc::Global;
use type_tables::DeclaredType;

/// What a declaration at file scope says before its declarators, and what stands behind it.
#[derive(Drop)]
pub struct FileDeclaration<'d, B> {
    pub storage: Storage,
    /// The type before the declarators.
    pub base: &'d Outcomes<DeclaredType, Refused>,
    /// The items of the unit behind the declaration.
    pub behind: &'d B,
}

/// Whether an item is the declarator of a function.
#[tactic(auto, using(choice_trees::specs::ItemLaws::item_kinds))]
fn is_function(item: &Item) -> bool
    ensures { (on : ℕ → Bool) → result ≡ spec.is_function (item_at on (plain_item item.now)) }
{
    match item {
        Item::Leaf(..) => false,
        Item::Node(kind, _) => is_function_kind(*kind),
    }
}

fn is_function_kind(kind: Kind) -> bool
    ensures { result ≡ spec.is_function_kind kind }
{
    matches!(kind, Kind::FunctionDeclarator)
}

/// The name of a declarator that is no function's, where the condition is true.
fn name_object<B: Behind, O: Oracle>(
    alloc: Global,
    oracle: &mut O,
    unit: &mut UnitTables,
    when: &Formula,
    declaration: &FileDeclaration<'_, B>,
    declarator: &Item,
    initialiser: Option<&Item>,
) -> Result<Formula, NoMemory>
    ensures kept { O.admits oracle.new ≡ O.admits oracle.old }
    ensures declares { IfOk result (λ f. (c : List Bool) (globals : ℕ) (role : Role) → IsTrue (value (has c) (O.admits oracle.old)) → spec.is_function (item_at (has c) (plain_item declarator.now)) ≡ false
        → Where (value (has c) (condition_of when.now))
        (Declares (has c) declaration.now.base.now (one_name globals (plain_storage declaration.now.storage) (B.rest declaration.now.behind.now c) (declared (item_at (has c) (plain_item declarator.now)) (option_map (λ item. item_at (has c) (plain_item item.now)) initialiser.entry)))
        (IsReady role (declared (item_at (has c) (plain_item declarator.now)) (option_map (λ item. item_at (has c) (plain_item item.now)) initialiser.entry))))
        (seen_unit (has c) unit.old) (seen_unit (has c) unit.new) (value (has c) (condition_of f))) }
{
    let object = ObjectDeclaration {
        storage: declaration.storage,
        initialiser,
        behind: declaration.behind,
    };
    let base = declaration.base;
    let refused = declare_object(alloc, oracle, unit, when, &object, base, declarator)?;
    Ok(refused)
}

/// The name of a declarator of a function, where the condition is true.
fn name_function<B: Behind, O: Oracle>(
    alloc: Global,
    oracle: &mut O,
    unit: &mut UnitTables,
    when: &Formula,
    declaration: &FileDeclaration<'_, B>,
    declarator: &Item,
    initialiser: Option<&Item>,
) -> Result<Formula, NoMemory>
    ensures kept { O.admits oracle.new ≡ O.admits oracle.old }
    ensures declares { IfOk result (λ f. (c : List Bool) (globals : ℕ) (role : Role) → IsTrue (value (has c) (O.admits oracle.old)) → spec.is_function (item_at (has c) (plain_item declarator.now)) ≡ true
        → Where (value (has c) (condition_of when.now))
        (Declares (has c) declaration.now.base.now (one_name globals (plain_storage declaration.now.storage) (B.rest declaration.now.behind.now c) (declared (item_at (has c) (plain_item declarator.now)) (option_map (λ item. item_at (has c) (plain_item item.now)) initialiser.entry)))
        (IsReady role (declared (item_at (has c) (plain_item declarator.now)) (option_map (λ item. item_at (has c) (plain_item item.now)) initialiser.entry))))
        (seen_unit (has c) unit.old) (seen_unit (has c) unit.new) (value (has c) (condition_of f))) }
{
    let base = declaration.base;
    let storage = declaration.storage;
    let initialised = initialiser.is_some();
    let refused = declare_function(
        alloc,
        oracle,
        unit,
        when,
        storage,
        initialised,
        base,
        declarator,
    )?;
    Ok(refused)
}

/// The name of a declarator, where the condition is true. The answer is where it is refused.
fn name_one<B: Behind, O: Oracle>(
    alloc: Global,
    oracle: &mut O,
    unit: &mut UnitTables,
    when: &Formula,
    declaration: &FileDeclaration<'_, B>,
    declarator: &Item,
    initialiser: Option<&Item>,
) -> Result<Formula, NoMemory>
    ensures kept { O.admits oracle.new ≡ O.admits oracle.old }
    ensures declares { IfOk result (λ f. (c : List Bool) (globals : ℕ) (role : Role) → IsTrue (value (has c) (O.admits oracle.old))
        → Where (value (has c) (condition_of when.now))
        (Declares (has c) declaration.now.base.now (one_name globals (plain_storage declaration.now.storage) (B.rest declaration.now.behind.now c) (declared (item_at (has c) (plain_item declarator.now)) (option_map (λ item. item_at (has c) (plain_item item.now)) initialiser.entry)))
        (IsReady role (declared (item_at (has c) (plain_item declarator.now)) (option_map (λ item. item_at (has c) (plain_item item.now)) initialiser.entry))))
        (seen_unit (has c) unit.old) (seen_unit (has c) unit.new) (value (has c) (condition_of f))) }
{
    if is_function(declarator) {
        return name_function(
            alloc,
            oracle,
            unit,
            when,
            declaration,
            declarator,
            initialiser,
        );
    }
    let refused = name_object(
        alloc,
        oracle,
        unit,
        when,
        declaration,
        declarator,
        initialiser,
    )?;
    Ok(refused)
}

/// The name of a declarator of a list, where the condition is true and it is there.
fn name_listed<B: Behind, O: Oracle>(
    alloc: Global,
    oracle: &mut O,
    unit: &mut UnitTables,
    when: &Formula,
    declaration: &FileDeclaration<'_, B>,
    listed: &ListedDeclarator<'_>,
) -> Result<Formula, NoMemory>
    ensures kept { O.admits oracle.new ≡ O.admits oracle.old }
    ensures declares { IfOk result (λ f. (c : List Bool) (globals : ℕ) (role : Role) → IsTrue (value (has c) (O.admits oracle.old))
        → Where (value (has c) (condition_of when.now) && value (has c) (condition_of listed.now.when))
        (Declares (has c) declaration.now.base.now (one_name globals (plain_storage declaration.now.storage) (B.rest declaration.now.behind.now c) (declarator_at (has c) listed.now).what)
        (IsReady role (declarator_at (has c) listed.now).what))
        (seen_unit (has c) unit.old) (seen_unit (has c) unit.new) (value (has c) (condition_of f))) }
{
    let here = both_of(alloc, when, &listed.when)?;
    let declarator = listed.declarator;
    let refused = name_one(
        alloc,
        oracle,
        unit,
        &here,
        declaration,
        declarator,
        listed.initialiser,
    )?;
    Ok(refused)
}

/// The names of the declarators of a list, one after the other.
fn name_each<B: Behind, O: Oracle>(
    alloc: Global,
    oracle: &mut O,
    unit: &mut UnitTables,
    when: &Formula,
    declaration: &FileDeclaration<'_, B>,
    all: &[ListedDeclarator<'_>],
) -> Result<Formula, NoMemory>
    ensures kept { O.admits oracle.new ≡ O.admits oracle.old }
    ensures declares { IfOk result (λ f. (c : List Bool) (globals : ℕ) (role : Role) (list : PlainTrees) → IsTrue (value (has c) (O.admits oracle.old))
        → seen (has c) (listed_at (has c) all.now) ≡ declared_in (trees_of list)
        → Where (value (has c) (condition_of when.now))
        (Declares (has c) declaration.now.base.now (all_names globals (plain_storage declaration.now.storage) (B.rest declaration.now.behind.now c) list) (Declared role list))
        (seen_unit (has c) unit.old) (seen_unit (has c) unit.new) (value (has c) (condition_of f))) }
{
    let mut refused = never()?;
    for listed in all {
        let found = name_listed(alloc, oracle, unit, when, declaration, listed)?;
        refused = either(alloc, refused, found)?;
    }
    Ok(refused)
}

/// The names of the parts of a list of declarators, where the condition is true: each is declared, as a function or as an object, behind the words
/// of the declaration. The answer is where one is refused.
pub fn declare_names<B: Behind, O: Oracle>(
    alloc: Global,
    oracle: &mut O,
    unit: &mut UnitTables,
    when: &Formula,
    declaration: &FileDeclaration<'_, B>,
    parts: &[Choice<Item>],
) -> Result<Formula, NoMemory>
    ensures kept { O.admits oracle.new ≡ O.admits oracle.old }
    ensures declares { IfOk result (λ f. (c : List Bool) (globals : ℕ) (role : Role) → IsTrue (value (has c) (O.admits oracle.old))
        → Where (value (has c) (condition_of when.now))
        (Declares (has c) declaration.now.base.now
        (all_names globals (plain_storage declaration.now.storage) (B.rest declaration.now.behind.now c) (parts_at (has c) k.Declarators 0 (plain_choices parts.now))) (Declared role (parts_at (has c) k.Declarators 0 (plain_choices parts.now))))
        (seen_unit (has c) unit.old) (seen_unit (has c) unit.new) (value (has c) (condition_of f))) }
{
    let all = listed_declarators(alloc, oracle, parts)?;
    let refused = name_each(alloc, oracle, unit, when, declaration, &all)?;
    Ok(refused)
}
