//! Definitions of functions by their words, their declarators and their blocks (6.9.1).
ghost use Rattle.std.specs.Prelude.{◌≡◌, Bool, ◌&&◌, List, [], ◌∷◌, IsTrue, IfOk};
ghost use Rattle.cond_formula.specs.Features.{has};
ghost use Rattle.cond_formula.specs.Conditions.{condition_of, value};
ghost use Rattle.conditional.specs.Entries.{seen};
ghost use Rattle.c_tree.specs.Grammar.{block};
ghost use Rattle.tree_derivations.specs.Derivations.{Derivation};
ghost use Rattle.choice_trees.specs.ChoiceTrees.{plain_item, item_at};
ghost use Rattle.core_meaning.specs.UnitNames as meaning;
ghost use Rattle.plain_objects.specs.PlainStates.{plain_storage};
ghost use Rattle.cond_units.specs.Seen.{seen_unit};
ghost use Rattle.cond_units.specs.Declaring.{Declares};
ghost use Rattle.cond_units.specs.Functions.{IsFunctionDeclarator, judged_declarator};
ghost use Rattle.cond_units.specs.Where.{Where};
ghost use Rattle.cond_units.specs.Names.{said};
ghost use Rattle.cond_units.specs.Items.{DeclaresItem};
ghost use Rattle.cond_types.specs.Definitions.{definition_of, IsDefinition, definition_of_head};

use crate::heads::FunctionDefinition;
use choice_expansions::expansions;
use choice_trees::Item;
use cond_declarators::base_of;
use cond_formula::{Formula, NoMemory, Oracle};
use cond_units::{SaidStorage, UnitTables, read_function, said_storages};
use conditional::Outcomes;
use conditional_steps::{both_of, never, possible_both, where_refused};
use operand_rules::Refused;
use reduced_conditions::either;
use std::alloc::Global;
use type_tables::DeclaredType;

/// The function with a storage, where the condition is true and the words say so.
fn define_with_storage<O: Oracle>(
    alloc: Global,
    oracle: &mut O,
    unit: &mut UnitTables,
    when: &Formula,
    base: &Outcomes<DeclaredType, Refused>,
    one: &SaidStorage,
    declarator: &Item,
    body: &Item,
) -> Result<Formula, NoMemory>
    ensures kept { O.admits oracle.new ≡ O.admits oracle.old }
    ensures declares { IfOk result (λ f. (c : List Bool) → IsTrue (value (has c) (O.admits oracle.old))
        → Where (value (has c) (condition_of when.now) && value (has c) (condition_of one.now.when))
        (Declares (has c) base.now
        (judged_declarator (definition_of_head (plain_storage one.now.storage) (item_at (has c) (plain_item body.now))) (item_at (has c) (plain_item declarator.now)))
        (IsFunctionDeclarator (item_at (has c) (plain_item declarator.now)) × Derivation block (item_at (has c) (plain_item body.now))))
        (seen_unit (has c) unit.old) (seen_unit (has c) unit.new) (value (has c) (condition_of f))) }
{
    let here = both_of(alloc, when, &one.when)?;
    let definition = FunctionDefinition {
        storage: one.storage,
        body,
    };
    let refused = read_function(alloc, oracle, unit, &here, &definition, base, declarator)?;
    Ok(refused)
}

/// The function with each of the storages, of which its words say one in each configuration.
fn define_with_each<O: Oracle>(
    alloc: Global,
    oracle: &mut O,
    unit: &mut UnitTables,
    when: &Formula,
    base: &Outcomes<DeclaredType, Refused>,
    storages: &[SaidStorage],
    declarator: &Item,
    body: &Item,
) -> Result<Formula, NoMemory>
    ensures kept { O.admits oracle.new ≡ O.admits oracle.old }
    ensures declares { IfOk result (λ f. (c : List Bool) (storage : meaning.Storage) → IsTrue (value (has c) (O.admits oracle.old)) → seen (has c) (said storages.now) ≡ storage ∷ []
        → Where (value (has c) (condition_of when.now))
        (Declares (has c) base.now
        (judged_declarator (definition_of_head storage (item_at (has c) (plain_item body.now))) (item_at (has c) (plain_item declarator.now)))
        (IsFunctionDeclarator (item_at (has c) (plain_item declarator.now)) × Derivation block (item_at (has c) (plain_item body.now))))
        (seen_unit (has c) unit.old) (seen_unit (has c) unit.new) (value (has c) (condition_of f))) }
{
    let mut refused = never()?;
    for one in storages {
        let found = define_with_storage(alloc, oracle, unit, when, base, one, declarator, body)?;
        refused = either(alloc, refused, found)?;
    }
    Ok(refused)
}

/// The definition of a function with these words, this declarator and this block, where the condition is true. The answer is where it is refused
/// (6.9.1).
pub fn define_function<O: Oracle>(
    alloc: Global,
    oracle: &mut O,
    unit: &mut UnitTables,
    when: &Formula,
    words: &Item,
    declarator: &Item,
    body: &Item,
) -> Result<Formula, NoMemory>
    ensures kept { O.admits oracle.new ≡ O.admits oracle.old }
    ensures declares { IfOk result (λ f. (c : List Bool) → IsTrue (value (has c) (O.admits oracle.old))
        → Where (value (has c) (condition_of when.now))
        (DeclaresItem (definition_of (item_at (has c) (plain_item words.now)) (item_at (has c) (plain_item declarator.now)) (item_at (has c) (plain_item body.now)))
        (IsDefinition (item_at (has c) (plain_item declarator.now)) (item_at (has c) (plain_item body.now))))
        (seen_unit (has c) unit.old) (seen_unit (has c) unit.new) (value (has c) (condition_of f))) }
{
    let base = base_of(alloc, oracle, &unit.tables, words)?;
    let untyped = where_refused(alloc, &base)?;
    let no_type = possible_both(alloc, oracle, when, &untyped)?;
    let trees = expansions(alloc, oracle, words)?;
    let said = said_storages(alloc, &trees)?;
    let refused = define_with_each(alloc, oracle, unit, when, &base, &said, declarator, body)?;
    either(alloc, no_type, refused)
}
