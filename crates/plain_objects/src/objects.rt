//! Declarations of objects of file scope (6.9.2).
ghost use Rattle.std.specs.Prelude.{ℕ, option_map};
ghost use Rattle.c_text.specs.Token.{plain_token};
ghost use Rattle.c_types.specs.Types.{plain_type};
ghost use Rattle.c_tree.specs.Trees.{plain_tree, plain_trees};
ghost use Rattle.core_meaning.specs.UnitNames as spec;
ghost use Rattle.plain_scope.specs.Judgements.{Judges};
ghost use Rattle.plain_objects.specs.PlainStates.{plain_state, plain_storage};
ghost use Rattle.plain_objects.specs.Placing.{placed_object};

use crate::completion::judge_global;
use crate::definitions::{Unit, define_initialised, define_tentatively};
use crate::names::{Storage, declare_name};
use c_text::Token;
use c_tree::{Kind, Tree};
use c_types::CType;
use plain_declarators::object_type;
use plain_scope::{ElabError, Sort, Used, copied};
use std::alloc::Global;

/// The definition of an object, if its declaration is one.
#[tactic(auto, using(plain_scope::specs::JudgementLaws::gives_nothing_used))]
fn define_object(
    alloc: Global,
    unit: &mut Unit,
    used: &mut Used,
    storage: Storage,
    ty: &CType,
    name: &Token,
    initialiser: Option<&Tree>,
) -> Result<(), ElabError>
    ensures { (globals : ℕ) → Judges (spec.defined_object globals (plain_state globals unit.old) (plain_storage storage) (plain_type ty.now) (plain_token name.now) (option_map (λ t. plain_tree t.now) initialiser.entry)) (λ u. plain_state globals unit.new) used.old used.new result }
{
    match initialiser {
        Some(tree) => define_initialised(alloc, unit, used, storage, ty, name, tree),
        None => {
            define_tentatively(alloc, unit, storage, ty, name)?;
            Ok(())
        }
    }
}

/// Declares an object of a type, with what stands behind it in the unit.
fn place_object(
    alloc: Global,
    unit: &mut Unit,
    used: &mut Used,
    storage: Storage,
    ty: &CType,
    name: &Token,
    initialiser: Option<&Tree>,
    rest: &[Tree],
) -> Result<(), ElabError>
    ensures { (globals : ℕ) → Judges (placed_object globals (plain_state globals unit.old) (plain_storage storage) (plain_type ty.now) (plain_token name.now) (option_map (λ t. plain_tree t.now) initialiser.entry) (plain_trees rest.now)) (λ u. plain_state globals unit.new) used.old used.new result }
{
    let sort = Sort::Variable(copied(alloc, ty)?);
    declare_name(alloc, &mut unit.scope, name, sort, storage)?;
    judge_global(storage, initialiser.is_some(), &unit.scope, ty, name, rest)?;
    define_object(alloc, unit, used, storage, ty, name, initialiser)
}

/// Declares an object by its declarator, with what stands behind it in the unit.
pub fn declare_object(
    alloc: Global,
    unit: &mut Unit,
    used: &mut Used,
    storage: Storage,
    base: &CType,
    kind: Kind,
    parts: &[Tree],
    name: &Token,
    initialiser: Option<&Tree>,
    rest: &[Tree],
) -> Result<(), ElabError>
    ensures { (globals : ℕ) → Judges (spec.declared_object globals (plain_state globals unit.old) (plain_storage storage) (plain_type base.now) kind (plain_trees parts.now) (plain_token name.now) (option_map (λ t. plain_tree t.now) initialiser.entry) (plain_trees rest.now)) (λ u. plain_state globals unit.new) used.old used.new result }
{
    let ty = object_type(
        alloc,
        &unit.scope,
        used,
        base,
        kind,
        parts,
        name,
        initialiser,
    )?;
    place_object(alloc, unit, used, storage, &ty, name, initialiser, rest)
}
