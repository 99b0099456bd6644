//! The declarators of a declaration at file scope (6.7).
ghost use Rattle.std.specs.Prelude.{◌≡◌, ℕ, Some, IfOk, MatchResult, option_map};
ghost use Rattle.c_text.specs.Token.{plain_token};
ghost use Rattle.c_types.specs.Types.{plain_type};
ghost use Rattle.c_tree.specs.Trees.{node, plain_tree, plain_trees};
ghost use Rattle.core_meaning.specs.UnitNames as spec;
ghost use Rattle.plain_scope.specs.Judgements.{Judges};
ghost use Rattle.plain_objects.specs.PlainStates.{plain_state, plain_storage};
ghost use Rattle.plain_declarations.specs.Locals.{first_size};
ghost use Rattle.plain_units.specs.Declarators.{declared_by_kind, declared_first, first_as, first_declarator};

use crate::functions::declare_function;
use c_text::Token;
use c_tree::{Kind, Terminal, Tree};
use c_types::CType;
use plain_declarators::name_in;
use plain_objects::{Storage, Unit, declare_object};
use plain_scope::{ElabError, Used, is_word};
use std::alloc::Global;

fn declare_in_scope(
    alloc: Global,
    unit: &mut Unit,
    used: &mut Used,
    storage: Storage,
    base: &CType,
    parts: &[Tree],
    name: &Token,
    initialiser: Option<&Tree>,
) -> Result<(), ElabError>
    ensures { (globals : ℕ) → Judges (spec.declared_function (plain_state globals unit.old) (plain_storage storage) (plain_type base.now) (plain_trees parts.now) (plain_token name.now) (option_map (λ t. plain_tree t.now) initialiser.entry)) (λ u. plain_state globals unit.new) used.old used.new result }
{
    declare_function(
        alloc,
        &mut unit.scope,
        used,
        storage,
        base,
        parts,
        name,
        initialiser,
    )
}

/// Declares a function or an object, by the kind of its declarator.
fn declare_by_kind(
    alloc: Global,
    unit: &mut Unit,
    used: &mut Used,
    storage: Storage,
    base: &CType,
    kind: Kind,
    parts: &[Tree],
    name: &Token,
    initialiser: Option<&Tree>,
    rest: &[Tree],
) -> Result<(), ElabError>
    ensures { (globals : ℕ) → Judges (declared_by_kind globals (plain_state globals unit.old) (plain_storage storage) (plain_type base.now) kind (plain_trees parts.now) (plain_token name.now) (option_map (λ t. plain_tree t.now) initialiser.entry) (plain_trees rest.now)) (λ u. plain_state globals unit.new) used.old used.new result }
{
    match kind {
        Kind::FunctionDeclarator => declare_in_scope(
            alloc,
            unit,
            used,
            storage,
            base,
            parts,
            name,
            initialiser,
        ),
        _ => declare_object(
            alloc,
            unit,
            used,
            storage,
            base,
            kind,
            parts,
            name,
            initialiser,
            rest,
        ),
    }
}

fn declare_named(
    alloc: Global,
    unit: &mut Unit,
    used: &mut Used,
    storage: Storage,
    base: &CType,
    kind: Kind,
    parts: &[Tree],
    initialiser: Option<&Tree>,
    rest: &[Tree],
) -> Result<(), ElabError>
    ensures { (globals : ℕ) → Judges (spec.declared_one globals (plain_state globals unit.old) (plain_storage storage) (plain_type base.now) (node kind (plain_trees parts.now)) (option_map (λ t. plain_tree t.now) initialiser.entry) (plain_trees rest.now)) (λ u. plain_state globals unit.new) used.old used.new result }
{
    match name_in(parts) {
        Some(name) => declare_by_kind(
            alloc,
            unit,
            used,
            storage,
            base,
            kind,
            parts,
            name,
            initialiser,
            rest,
        ),
        None => Err(ElabError::Memory),
    }
}

/// A declarator with its initialiser, and what stands behind the declaration in the unit.
#[tactic(auto, using(c_tree::specs::TreeLaws::tree_kinds))]
fn declare_one(
    alloc: Global,
    unit: &mut Unit,
    used: &mut Used,
    storage: Storage,
    base: &CType,
    tree: &Tree,
    initialiser: Option<&Tree>,
    rest: &[Tree],
) -> Result<(), ElabError>
    ensures { (globals : ℕ) → Judges (spec.declared_one globals (plain_state globals unit.old) (plain_storage storage) (plain_type base.now) (plain_tree tree.now) (option_map (λ t. plain_tree t.now) initialiser.entry) (plain_trees rest.now)) (λ u. plain_state globals unit.new) used.old used.new result }
{
    match tree {
        Tree::Leaf(_) => Err(ElabError::Memory),
        Tree::Node(kind, parts) => declare_named(
            alloc,
            unit,
            used,
            storage,
            base,
            *kind,
            parts,
            initialiser,
            rest,
        ),
    }
}

/// The first declarator of a list, what initialises it, and how many trees of the list both are.
fn first_declarator(list: &[Tree]) -> Result<(&Tree, Option<&Tree>, usize), ElabError>
    ensures { MatchResult result (λ r. first_declarator (plain_trees list.now) ≡ Some (first_as (plain_tree r.0.now) (option_map (λ t. plain_tree t.now) r.1) r.2)) (λ error. error ≡ ElabError.Memory) }
{
    let Some((tree, behind)) = list.split_first() else {
        return Err(ElabError::Memory);
    };
    let Some((sign, signed)) = behind.split_first() else {
        return Ok((tree, None, 1));
    };
    let Some((next, _)) = signed.split_first() else {
        return Err(ElabError::Memory);
    };
    if is_word(sign, Terminal::Assign) {
        Ok((tree, Some(next), 3))
    } else {
        Ok((tree, None, 1))
    }
}

/// Declares the first declarator of a list, with what stands behind the declaration in the unit. How many trees of the list
/// it takes with its initialiser.
fn declare_first(
    alloc: Global,
    unit: &mut Unit,
    used: &mut Used,
    storage: Storage,
    base: &CType,
    list: &[Tree],
    rest: &[Tree],
) -> Result<usize, ElabError>
    ensures judged { (globals : ℕ) → Judges (declared_first globals (plain_state globals unit.old) (plain_storage storage) (plain_type base.now) (plain_trees list.now) (plain_trees rest.now)) (λ u. plain_state globals unit.new) used.old used.new result }
    ensures size { IfOk result (λ size. size ≡ first_size (plain_trees list.now)) }
{
    let (tree, initialiser, size) = first_declarator(list)?;
    declare_one(alloc, unit, used, storage, base, tree, initialiser, rest)?;
    Ok(size)
}

/// The declarators of a declaration, one after the other, with what stands behind it in the unit.
pub fn declare_from(
    alloc: Global,
    unit: &mut Unit,
    used: &mut Used,
    storage: Storage,
    base: &CType,
    list: &[Tree],
    rest: &[Tree],
) -> Result<(), ElabError>
    ensures { (globals : ℕ) → Judges (spec.declared_from globals (plain_state globals unit.old) (plain_storage storage) (plain_type base.now) (plain_trees list.now) (plain_trees rest.now)) (λ u. plain_state globals unit.new) used.old used.new result }
{
    let mut place = 0;
    while place < list.len() {
        let (_, left) = list.split_at(place);
        let size = declare_first(alloc, unit, used, storage, base, left, rest)?;
        if left.len() <= size {
            return Ok(());
        }
        place += size + 1;
    }
    Err(ElabError::Memory)
}
