//! The declarations of locals (6.2.1, 6.7).
ghost use Rattle.std.specs.Prelude.{◌≡◌, ◌∷◌, [], length, map, IfOk, OnOk, None, Some, option_map};
ghost use Rattle.c_text.specs.Token.{plain_token};
ghost use Rattle.c_types.specs.Types.{plain_type};
ghost use Rattle.c_tree.specs.Trees.{node, plain_tree, plain_trees};
ghost use Rattle.core_meaning.specs.Plain.{plain_part};
ghost use Rattle.core_meaning.specs.Declarations as spec;
ghost use Rattle.plain_scope.specs.Blocks.{without_block};
ghost use Rattle.plain_scope.specs.PlainScope.{plain_scope};
ghost use Rattle.plain_scope.specs.Judgements.{Judges};
ghost use Rattle.plain_declarations.specs.PlainDeclared.{plain_initial};
ghost use Rattle.plain_declarations.specs.PlainLocals.{plain_locals};
ghost use Rattle.plain_declarations.specs.Locals.{parts_given, placed_local, typed_local, local_by_type, initialiser_by, first_size, first_local, locals_of};

use crate::initialisers::{Initial, initialised};
use c_text::Token;
use c_tree::{Kind, Terminal, Tree};
use c_types::CType;
use cond_formula::NoMemory;
use core_meaning::{Part, TypeKind};
use plain_declarators::{base_of, judge_object, name_in, node_parts, object_type, three_parts};
use plain_scope::{ElabError, Scope, Used, is_word, unless};
use std::alloc::Global;

/// A declared local with the parts of its initialiser; without any it has none.
#[derive(Drop)]
pub struct LocalItem {
    pub slot: u32,
    pub parts: Vec<Part>,
}

fn part_of(initial: Initial) -> Part
    ensures { plain_part result ≡ spec.plain_part (plain_initial initial.entry) }
{
    let Initial {
        path,
        value,
        first: _,
    } = initial;
    Part { path, value }
}

fn parts_from(alloc: Global, found: Vec<Initial>) -> Result<Vec<Part>, NoMemory>
    ensures { IfOk result (λ parts. map plain_part parts.items ≡ map spec.plain_part (map plain_initial found.entry.items)) }
{
    let mut parts = Vec::new(alloc);
    for initial in found {
        parts.push(part_of(initial))?;
    }
    Ok(parts)
}

/// The parts of a local's initialiser.
#[tactic(auto, using(plain_declarators::specs::Sequences::gives_as, plain_scope::specs::JudgementLaws::refused_first))]
fn given_parts(
    alloc: Global,
    scope: &Scope,
    used: &mut Used,
    ty: &CType,
    name: &Token,
    initialiser: &Tree,
) -> Result<Vec<Part>, ElabError>
    ensures { Judges (parts_given (plain_scope scope.now) (plain_type ty.now) (plain_token name.now) (Some (plain_tree initialiser.now))) (λ parts. map plain_part parts.items) used.old used.new result }
{
    let found = initialised(alloc, scope, used, false, initialiser, ty, &[], name)?;
    let parts = parts_from(alloc, found)?;
    Ok(parts)
}

#[tactic(auto, using(plain_scope::specs::JudgementLaws::gives_nothing_used))]
fn local_parts(
    alloc: Global,
    scope: &Scope,
    used: &mut Used,
    ty: &CType,
    name: &Token,
    initialiser: Option<&Tree>,
) -> Result<Vec<Part>, ElabError>
    ensures { Judges (parts_given (plain_scope scope.now) (plain_type ty.now) (plain_token name.now) (option_map (λ t. plain_tree t.now) initialiser.entry)) (λ parts. map plain_part parts.items) used.old used.new result }
{
    match initialiser {
        Some(tree) => {
            let parts = given_parts(alloc, scope, used, ty, name, tree)?;
            Ok(parts)
        }
        None => Ok(Vec::new(alloc)),
    }
}

/// A local in its slot, with its initialiser, in which it is visible.
#[tactic(auto, using(plain_declarators::specs::Sequences::gives_as, plain_declarators::specs::Bound::outside_local, plain_scope::specs::JudgementLaws::refused_first))]
fn place_local(
    alloc: Global,
    scope: &mut Scope,
    used: &mut Used,
    slots: &mut Vec<CType>,
    slot: u32,
    ty: CType,
    name: &Token,
    initialiser: Option<&Tree>,
) -> Result<LocalItem, ElabError>
    requires { slot ≡ length slots.old.items }
    ensures judged { Judges (placed_local (plain_scope scope.old) (map plain_type slots.old.items) slot (plain_type ty) (plain_token name.now) (option_map (λ t. plain_tree t.now) initialiser.entry)) (λ item. plain_locals scope.new slots.new.items (item ∷ [])) used.old used.new result }
    ensures outside { OnOk result (without_block (plain_scope scope.new) ≡ without_block (plain_scope scope.old)) }
{
    scope.declare_local(alloc, name.text.as_slice(), slot, &ty)?;
    let parts = local_parts(alloc, scope, used, &ty, name, initialiser)?;
    slots.push(ty)?;
    Ok(LocalItem { slot, parts })
}

/// A local of a type that must be complete and small enough.
#[tactic(auto, using(plain_declarators::specs::Sequences::gives_next, plain_declarators::specs::Sequences::refused_next, plain_scope::specs::JudgementLaws::refused_first, plain_declarators::specs::Bound::struct_numbers))]
fn typed_local(
    alloc: Global,
    scope: &mut Scope,
    used: &mut Used,
    slots: &mut Vec<CType>,
    ty: CType,
    name: &Token,
    initialiser: Option<&Tree>,
) -> Result<LocalItem, ElabError>
    ensures judged { Judges (typed_local (plain_scope scope.old) (map plain_type slots.old.items) (plain_type ty) (plain_token name.now) (option_map (λ t. plain_tree t.now) initialiser.entry)) (λ item. plain_locals scope.new slots.new.items (item ∷ [])) used.old used.new result }
    ensures outside { OnOk result (without_block (plain_scope scope.new) ≡ without_block (plain_scope scope.old)) }
{
    judge_object(scope, &ty, name)?;
    let Ok(slot) = u32::try_from(slots.len()) else {
        return Err(ElabError::Memory);
    };
    let item = place_local(alloc, scope, used, slots, slot, ty, name, initialiser)?;
    Ok(item)
}

/// A local of a declaration.
#[tactic(auto, using(plain_declarators::specs::Sequences::passed_gives, plain_declarators::specs::Sequences::passed_refused, plain_declarators::specs::Sequences::failed_refused, crate::specs::Locals::local_bound, crate::specs::Locals::local_refused, plain_scope::specs::JudgementLaws::gives_then, plain_scope::specs::JudgementLaws::refused_first, plain_declarators::specs::Sequences::refused_behind))]
fn declared_local(
    alloc: Global,
    scope: &mut Scope,
    used: &mut Used,
    slots: &mut Vec<CType>,
    base: &CType,
    kind: Kind,
    parts: &[Tree],
    name: &Token,
    initialiser: Option<&Tree>,
) -> Result<LocalItem, ElabError>
    ensures judged { Judges (local_by_type (plain_scope scope.old) (map plain_type slots.old.items) (plain_type base.now) kind (plain_trees parts.now) (plain_token name.now) (option_map (λ t. plain_tree t.now) initialiser.entry)) (λ item. plain_locals scope.new slots.new.items (item ∷ [])) used.old used.new result }
    ensures outside { OnOk result (without_block (plain_scope scope.new) ≡ without_block (plain_scope scope.old)) }
{
    unless(
        scope.is_new_local(name.text.as_slice()),
        TypeKind::Redeclared,
        name,
    )?;
    let ty = object_type(alloc, scope, used, base, kind, parts, name, initialiser)?;
    let item = typed_local(alloc, scope, used, slots, ty, name, initialiser)?;
    Ok(item)
}

#[tactic(auto, using(crate::specs::Locals::named_refused))]
fn named_local(
    alloc: Global,
    scope: &mut Scope,
    used: &mut Used,
    slots: &mut Vec<CType>,
    base: &CType,
    kind: Kind,
    parts: &[Tree],
    initialiser: Option<&Tree>,
) -> Result<LocalItem, ElabError>
    ensures judged { Judges (spec.one_local (plain_scope scope.old) (map plain_type slots.old.items) (plain_type base.now) (node kind (plain_trees parts.now)) (option_map (λ t. plain_tree t.now) initialiser.entry)) (λ item. plain_locals scope.new slots.new.items (item ∷ [])) used.old used.new result }
    ensures outside { OnOk result (without_block (plain_scope scope.new) ≡ without_block (plain_scope scope.old)) }
{
    match name_in(parts) {
        Some(name) => {
            let item = declared_local(
                alloc,
                scope,
                used,
                slots,
                base,
                kind,
                parts,
                name,
                initialiser,
            )?;
            Ok(item)
        }
        None => Err(ElabError::Memory),
    }
}

#[tactic(auto, using(c_tree::specs::TreeLaws::tree_kinds))]
fn one_local(
    alloc: Global,
    scope: &mut Scope,
    used: &mut Used,
    slots: &mut Vec<CType>,
    base: &CType,
    tree: &Tree,
    initialiser: Option<&Tree>,
) -> Result<LocalItem, ElabError>
    ensures judged { Judges (spec.one_local (plain_scope scope.old) (map plain_type slots.old.items) (plain_type base.now) (plain_tree tree.now) (option_map (λ t. plain_tree t.now) initialiser.entry)) (λ item. plain_locals scope.new slots.new.items (item ∷ [])) used.old used.new result }
    ensures outside { OnOk result (without_block (plain_scope scope.new) ≡ without_block (plain_scope scope.old)) }
{
    match tree {
        Tree::Leaf(_) => Err(ElabError::Memory),
        Tree::Node(kind, parts) => {
            let item = named_local(alloc, scope, used, slots, base, *kind, parts, initialiser)?;
            Ok(item)
        }
    }
}

/// What stands behind a declarator's sign, if the sign says that it initialises.
fn initialiser_by<'t>(sign: &Tree, next: &'t Tree) -> Option<&'t Tree>
    ensures { option_map (λ t. plain_tree t.now) result ≡ initialiser_by (plain_tree sign.now) (plain_tree next.now) }
{
    if is_word(sign, Terminal::Assign) {
        Some(next)
    } else {
        None
    }
}

/// How many trees of a list are its first declarator with what initialises it.
fn first_size(list: &[Tree]) -> usize
    ensures { result ≡ first_size (plain_trees list.now) }
{
    let Some((_, behind)) = list.split_first() else {
        return 1;
    };
    let Some((sign, _)) = behind.split_first() else {
        return 1;
    };
    if is_word(sign, Terminal::Assign) {
        3
    } else {
        1
    }
}

/// The first local of a list of declarators.
fn first_local(
    alloc: Global,
    scope: &mut Scope,
    used: &mut Used,
    slots: &mut Vec<CType>,
    base: &CType,
    list: &[Tree],
) -> Result<LocalItem, ElabError>
    ensures judged { Judges (first_local (plain_scope scope.old) (map plain_type slots.old.items) (plain_type base.now) (plain_trees list.now)) (λ item. plain_locals scope.new slots.new.items (item ∷ [])) used.old used.new result }
    ensures outside { OnOk result (without_block (plain_scope scope.new) ≡ without_block (plain_scope scope.old)) }
{
    let Some((tree, behind)) = list.split_first() else {
        return Err(ElabError::Memory);
    };
    let Some((sign, rest)) = behind.split_first() else {
        let item = one_local(alloc, scope, used, slots, base, tree, None)?;
        return Ok(item);
    };
    let Some((next, _)) = rest.split_first() else {
        return Err(ElabError::Memory);
    };
    let initialiser = initialiser_by(sign, next);
    let item = one_local(alloc, scope, used, slots, base, tree, initialiser)?;
    Ok(item)
}

/// The locals of a list of declarators, one after the other.
fn locals_from(
    alloc: Global,
    scope: &mut Scope,
    used: &mut Used,
    slots: &mut Vec<CType>,
    base: &CType,
    list: &[Tree],
) -> Result<Vec<LocalItem>, ElabError>
    ensures judged { Judges (spec.locals_from (plain_scope scope.old) (map plain_type slots.old.items) (plain_type base.now) (plain_trees list.now)) (λ items. plain_locals scope.new slots.new.items items.items) used.old used.new result }
    ensures outside { OnOk result (without_block (plain_scope scope.new) ≡ without_block (plain_scope scope.old)) }
{
    let mut items = Vec::new(alloc);
    let mut place = 0;
    while place < list.len() {
        let (_, left) = list.split_at(place);
        let size = first_size(left);
        let item = first_local(alloc, scope, used, slots, base, left)?;
        items.push(item)?;
        if left.len() <= size {
            return Ok(items);
        }
        place += size + 1;
    }
    Err(ElabError::Memory)
}

#[tactic(auto, using(plain_declarators::specs::Bound::base_gives, plain_declarators::specs::Bound::base_refused, plain_scope::specs::JudgementLaws::refused_first))]
fn locals_of(
    alloc: Global,
    scope: &mut Scope,
    used: &mut Used,
    slots: &mut Vec<CType>,
    words: &[Tree],
    list: &[Tree],
) -> Result<Vec<LocalItem>, ElabError>
    ensures judged { Judges (locals_of (plain_scope scope.old) (map plain_type slots.old.items) (plain_trees words.now) (plain_trees list.now)) (λ items. plain_locals scope.new slots.new.items items.items) used.old used.new result }
    ensures outside { OnOk result (without_block (plain_scope scope.new) ≡ without_block (plain_scope scope.old)) }
{
    let base = base_of(scope, words)?;
    let items = locals_from(alloc, scope, used, slots, &base, list)?;
    Ok(items)
}

/// The locals of a declaration in a block, which are visible behind it.
pub fn declared_locals(
    alloc: Global,
    scope: &mut Scope,
    used: &mut Used,
    slots: &mut Vec<CType>,
    parts: &[Tree],
) -> Result<Vec<LocalItem>, ElabError>
    ensures judged { Judges (spec.judged_locals (plain_scope scope.old) (map plain_type slots.old.items) (plain_trees parts.now)) (λ items. plain_locals scope.new slots.new.items items.items) used.old used.new result }
    ensures outside { OnOk result (without_block (plain_scope scope.new) ≡ without_block (plain_scope scope.old)) }
{
    let (words, list, _) = three_parts(parts)?;
    let words = node_parts(words)?;
    let list = node_parts(list)?;
    let items = locals_of(alloc, scope, used, slots, words, list)?;
    Ok(items)
}
