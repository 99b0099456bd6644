//! The storage of a declaration at file scope (6.7.1), which its words say, and its names behind each.
ghost use Rattle.std.specs.Prelude.{◌≡◌, ℕ, Bool, ◌&&◌, List, [], ◌∷◌, map, IsTrue, IfOk};
ghost use Rattle.cond_formula.specs.Features.{has};
ghost use Rattle.cond_formula.specs.Conditions.{condition_of, value};
ghost use Rattle.conditional.specs.Entries.{seen};
ghost use Rattle.c_tree.specs.declared.kinds.Kind.TheVariants as k;
ghost use Rattle.c_tree.specs.Trees.{plain_tree};
ghost use Rattle.c_tree.specs.Grammar.{Role};
ghost use Rattle.tree_derivations.specs.Derivations.{Declared};
ghost use Rattle.choice_trees.specs.ChoiceTrees.{plain_choices, parts_at};
ghost use Rattle.choice_expansions.specs.Expansions.{expanded};
ghost use Rattle.core_meaning.specs.UnitNames as meaning;
ghost use Rattle.plain_objects.specs.PlainStates.{plain_storage};
ghost use Rattle.cond_units.specs.Seen.{seen_unit};
ghost use Rattle.cond_units.specs.Declaring.{Declares};
ghost use Rattle.cond_units.specs.Where.{Where};
ghost use Rattle.cond_units.specs.Names.{all_names, storage_in, said};

use crate::names::{FileDeclaration, declare_names};
use crate::{Behind, UnitTables};
use c_tree::Tree;
use choice_expansions::Expansion;
use choice_trees::{Choice, Item};
use cond_formula::{Formula, NoMemory, Oracle};
use conditional::Outcomes;
use conditional_steps::{both_of, never};
use operand_rules::Refused;
use plain_objects::{Storage, storage_of};
use reduced_conditions::either;
use std::alloc::Global;
use type_tables::DeclaredType;

/// The storage that words say where a condition is true.
#[derive(Drop)]
pub struct SaidStorage {
    pub when: Formula,
    pub storage: Storage,
}

/// What stands around a declaration.
#[derive(Drop)]
pub struct Surroundings<'d, B> {
    /// The items of the unit behind the declaration.
    pub behind: &'d B,
}

/// The storage that the words in a tree say.
#[tactic(auto, using(c_tree::specs::TreeLaws::tree_kinds))]
fn storage_in_tree(tree: &Tree) -> Storage
    ensures { plain_storage result ≡ storage_in (plain_tree tree.now) }
{
    match tree {
        Tree::Leaf(_) => Storage::Absent,
        Tree::Node(_, words) => storage_of(words),
    }
}

/// The storage that each of the trees says that words stand for.
pub fn said_storages(alloc: Global, expansions: &[Expansion]) -> Result<Vec<SaidStorage>, NoMemory>
    ensures { IfOk result (λ all. (on : ℕ → Bool) → seen on (said all.items) ≡ map storage_in (seen on (expanded expansions.now))) }
{
    let mut all = Vec::with_capacity(alloc, expansions.len())?;
    for expansion in expansions {
        let when = expansion.when.try_clone(alloc)?;
        let storage = storage_in_tree(&expansion.tree);
        all.push(SaidStorage { when, storage })?;
    }
    Ok(all)
}

/// The names of a declaration with a storage, where the condition is true and the words say so.
fn name_with_storage<B: Behind, O: Oracle>(
    alloc: Global,
    oracle: &mut O,
    unit: &mut UnitTables,
    when: &Formula,
    surroundings: &Surroundings<'_, B>,
    base: &Outcomes<DeclaredType, Refused>,
    one: &SaidStorage,
    parts: &[Choice<Item>],
) -> Result<Formula, NoMemory>
    ensures kept { O.admits oracle.new ≡ O.admits oracle.old }
    ensures declares { IfOk result (λ f. (c : List Bool) (globals : ℕ) (role : Role) → IsTrue (value (has c) (O.admits oracle.old))
        → Where (value (has c) (condition_of when.now) && value (has c) (condition_of one.now.when))
        (Declares (has c) base.now
        (all_names globals (plain_storage one.now.storage) (B.rest surroundings.now.behind.now c) (parts_at (has c) k.Declarators 0 (plain_choices parts.now))) (Declared role (parts_at (has c) k.Declarators 0 (plain_choices parts.now))))
        (seen_unit (has c) unit.old) (seen_unit (has c) unit.new) (value (has c) (condition_of f))) }
{
    let here = both_of(alloc, when, &one.when)?;
    let declaration = FileDeclaration {
        storage: one.storage,
        base,
        behind: surroundings.behind,
    };
    let refused = declare_names(alloc, oracle, unit, &here, &declaration, parts)?;
    Ok(refused)
}

/// The names of a declaration with each of the storages, of which its words say one in each configuration.
pub(crate) fn name_with_each<B: Behind, O: Oracle>(
    alloc: Global,
    oracle: &mut O,
    unit: &mut UnitTables,
    when: &Formula,
    surroundings: &Surroundings<'_, B>,
    base: &Outcomes<DeclaredType, Refused>,
    storages: &[SaidStorage],
    parts: &[Choice<Item>],
) -> Result<Formula, NoMemory>
    ensures kept { O.admits oracle.new ≡ O.admits oracle.old }
    ensures declares { IfOk result (λ f. (c : List Bool) (globals : ℕ) (role : Role) (storage : meaning.Storage) → IsTrue (value (has c) (O.admits oracle.old)) → seen (has c) (said storages.now) ≡ storage ∷ []
        → Where (value (has c) (condition_of when.now))
        (Declares (has c) base.now
        (all_names globals storage (B.rest surroundings.now.behind.now c) (parts_at (has c) k.Declarators 0 (plain_choices parts.now))) (Declared role (parts_at (has c) k.Declarators 0 (plain_choices parts.now))))
        (seen_unit (has c) unit.old) (seen_unit (has c) unit.new) (value (has c) (condition_of f))) }
{
    let mut refused = never()?;
    for one in storages {
        let found = name_with_storage(alloc, oracle, unit, when, surroundings, base, one, parts)?;
        refused = either(alloc, refused, found)?;
    }
    Ok(refused)
}
