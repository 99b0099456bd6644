//! The items of a unit (6.9).
ghost use Rattle.std.specs.Prelude.{◌≡◌, ℕ, ◌+◌, ◌<◌, Some, length, drop, MatchResult};
ghost use Rattle.c_text.specs.Token.{plain_token};
ghost use Rattle.c_types.specs.Types.{plain_type};
ghost use Rattle.c_tree.specs.Trees.{node, none, more, plain_tree, plain_trees};
ghost use Rattle.core_meaning.specs.UnitNames as spec;
ghost use Rattle.plain_scope.specs.Judgements.{Judges};
ghost use Rattle.plain_objects.specs.PlainStates.{plain_state, plain_storage};
ghost use Rattle.plain_units.specs.Items.{tag_item, declaration_item, function_named, function_item, only_declarator};

use crate::declarations::declare_from;
use crate::functions::judge_function;
use c_text::Token;
use c_tree::{Kind, Tree};
use c_types::CType;
use plain_declarators::{base_of, declared_base, name_in, node_parts, three_parts, two_parts};
use plain_link::Definite;
use plain_objects::{Storage, Unit, define, storage_of};
use plain_scope::{ElabError, Used};
use plain_structs::define_struct;
use std::alloc::Global;

// ---- structs

/// The first three parts of a node.
fn three_first(parts: &[Tree]) -> Result<(&Tree, &Tree, &Tree, &[Tree]), ElabError>
    ensures { MatchResult result (λ r. plain_trees parts.now ≡ more (plain_tree r.0.now) (more (plain_tree r.1.now) (more (plain_tree r.2.now) (plain_trees r.3.now)))) (λ error. error ≡ ElabError.Memory) }
{
    let Some((a, rest)) = parts.split_first() else {
        return Err(ElabError::Memory);
    };
    let Some((b, rest)) = rest.split_first() else {
        return Err(ElabError::Memory);
    };
    let Some((c, rest)) = rest.split_first() else {
        return Err(ElabError::Memory);
    };
    Ok((a, b, c, rest))
}

fn define_in_scope(
    alloc: Global,
    unit: &mut Unit,
    used: &mut Used,
    words: &[Tree],
    list: &[Tree],
) -> Result<(), ElabError>
    ensures { (globals : ℕ) → Judges (spec.defined_struct (plain_state globals unit.old) (plain_trees words.now) (plain_trees list.now)) (λ u. plain_state globals unit.new) used.old used.new result }
{
    define_struct(alloc, &mut unit.scope, used, words, list)
}

fn struct_definition(
    alloc: Global,
    unit: &mut Unit,
    used: &mut Used,
    parts: &[Tree],
    behind: &[Tree],
) -> Result<(), ElabError>
    ensures { (globals : ℕ) → Judges (spec.judged_item globals (plain_state globals unit.old) (node Kind.StructDefinition (plain_trees parts.now)) (plain_trees behind.now)) (λ u. plain_state globals unit.new) used.old used.new result }
{
    let (tag, _, list, _) = three_first(parts)?;
    let words = node_parts(tag)?;
    let list = node_parts(list)?;
    define_in_scope(alloc, unit, used, words, list)
}

/// `struct NAME ;` (6.7.2.3).
fn declare_tag(alloc: Global, unit: &mut Unit, used: &Used, words: &[Tree]) -> Result<(), ElabError>
    ensures { (globals : ℕ) → Judges (tag_item (plain_state globals unit.old) (plain_trees words.now)) (λ u. plain_state globals unit.new) used.now used.now result }
{
    declared_base(alloc, &mut unit.scope, words)?;
    Ok(())
}

fn struct_declaration(
    alloc: Global,
    unit: &mut Unit,
    used: &Used,
    parts: &[Tree],
    behind: &[Tree],
) -> Result<(), ElabError>
    ensures { (globals : ℕ) → Judges (spec.judged_item globals (plain_state globals unit.old) (node Kind.StructDeclaration (plain_trees parts.now)) (plain_trees behind.now)) (λ u. plain_state globals unit.new) used.now used.now result }
{
    let (tag, _) = two_parts(parts)?;
    let words = node_parts(tag)?;
    declare_tag(alloc, unit, used, words)
}

// ---- declarations

fn declare_by_words(
    alloc: Global,
    unit: &mut Unit,
    used: &mut Used,
    words: &[Tree],
    list: &[Tree],
    behind: &[Tree],
) -> Result<(), ElabError>
    ensures { (globals : ℕ) → Judges (declaration_item globals (plain_state globals unit.old) (plain_trees words.now) (plain_trees list.now) (plain_trees behind.now)) (λ u. plain_state globals unit.new) used.old used.new result }
{
    let base = declared_base(alloc, &mut unit.scope, words)?;
    declare_from(alloc, unit, used, storage_of(words), &base, list, behind)
}

fn declaration(
    alloc: Global,
    unit: &mut Unit,
    used: &mut Used,
    parts: &[Tree],
    behind: &[Tree],
) -> Result<(), ElabError>
    ensures { (globals : ℕ) → Judges (spec.judged_item globals (plain_state globals unit.old) (node Kind.Declaration (plain_trees parts.now)) (plain_trees behind.now)) (λ u. plain_state globals unit.new) used.old used.new result }
{
    let (words, list, _) = three_parts(parts)?;
    let words = node_parts(words)?;
    let list = node_parts(list)?;
    declare_by_words(alloc, unit, used, words, list, behind)
}

// ---- functions

fn define_function(
    alloc: Global,
    unit: &mut Unit,
    used: &mut Used,
    storage: Storage,
    base: &CType,
    parts: &[Tree],
    name: &Token,
    body: &Tree,
) -> Result<(), ElabError>
    ensures { (globals : ℕ) → Judges (spec.defined_function (plain_state globals unit.old) (plain_storage storage) (plain_type base.now) (plain_trees parts.now) (plain_token name.now) (plain_tree body.now)) (λ u. plain_state globals unit.new) used.old used.new result }
{
    let definition = judge_function(
        alloc,
        &mut unit.scope,
        used,
        storage,
        base,
        parts,
        name,
        body,
    )?;
    define(alloc, unit, name, Definite::Function(definition))?;
    Ok(())
}

fn define_named(
    alloc: Global,
    unit: &mut Unit,
    used: &mut Used,
    words: &[Tree],
    base: &CType,
    parts: &[Tree],
    body: &Tree,
) -> Result<(), ElabError>
    ensures { (globals : ℕ) → Judges (function_named (plain_state globals unit.old) (plain_trees words.now) (plain_type base.now) (plain_trees parts.now) (plain_tree body.now)) (λ u. plain_state globals unit.new) used.old used.new result }
{
    let Some(name) = name_in(parts) else {
        return Err(ElabError::Memory);
    };
    define_function(
        alloc,
        unit,
        used,
        storage_of(words),
        base,
        parts,
        name,
        body,
    )
}

fn define_by_words(
    alloc: Global,
    unit: &mut Unit,
    used: &mut Used,
    words: &[Tree],
    parts: &[Tree],
    body: &Tree,
) -> Result<(), ElabError>
    ensures { (globals : ℕ) → Judges (function_item (plain_state globals unit.old) (plain_trees words.now) (plain_trees parts.now) (plain_tree body.now)) (λ u. plain_state globals unit.new) used.old used.new result }
{
    let base = base_of(&unit.scope, words)?;
    define_named(alloc, unit, used, words, &base, parts, body)
}

fn only_part(parts: &[Tree]) -> Result<&Tree, ElabError>
    ensures { MatchResult result (λ a. plain_trees parts.now ≡ more (plain_tree a.now) none) (λ error. error ≡ ElabError.Memory) }
{
    let Some((a, rest)) = parts.split_first() else {
        return Err(ElabError::Memory);
    };
    match rest.split_first() {
        Some(_) => Err(ElabError::Memory),
        None => Ok(a),
    }
}

/// The parts of the only declarator of a function.
#[tactic(auto, using(crate::specs::Items::only_node))]
fn only_declarator(list: &[Tree]) -> Result<&[Tree], ElabError>
    ensures { MatchResult result (λ parts. only_declarator (plain_trees list.now) ≡ Some (plain_trees parts.now)) (λ error. error ≡ ElabError.Memory) }
{
    let first = only_part(list)?;
    node_parts(first)
}

fn function_definition(
    alloc: Global,
    unit: &mut Unit,
    used: &mut Used,
    parts: &[Tree],
    behind: &[Tree],
) -> Result<(), ElabError>
    ensures { (globals : ℕ) → Judges (spec.judged_item globals (plain_state globals unit.old) (node Kind.Function (plain_trees parts.now)) (plain_trees behind.now)) (λ u. plain_state globals unit.new) used.old used.new result }
{
    let (words, list, body) = three_parts(parts)?;
    let words = node_parts(words)?;
    let list = node_parts(list)?;
    let declarator = only_declarator(list)?;
    define_by_words(alloc, unit, used, words, declarator, body)
}

// ---- items

fn judge_by_kind(
    alloc: Global,
    unit: &mut Unit,
    used: &mut Used,
    kind: Kind,
    parts: &[Tree],
    behind: &[Tree],
) -> Result<(), ElabError>
    ensures { (globals : ℕ) → Judges (spec.judged_item globals (plain_state globals unit.old) (node kind (plain_trees parts.now)) (plain_trees behind.now)) (λ u. plain_state globals unit.new) used.old used.new result }
{
    match kind {
        Kind::StructDefinition => struct_definition(alloc, unit, used, parts, behind),
        Kind::StructDeclaration => struct_declaration(alloc, unit, used, parts, behind),
        Kind::Declaration => declaration(alloc, unit, used, parts, behind),
        Kind::Function => function_definition(alloc, unit, used, parts, behind),
        _ => Err(ElabError::Memory),
    }
}

/// An item, with what stands behind it in the unit.
#[tactic(auto, using(c_tree::specs::TreeLaws::tree_kinds))]
fn judge_item(
    alloc: Global,
    unit: &mut Unit,
    used: &mut Used,
    tree: &Tree,
    behind: &[Tree],
) -> Result<(), ElabError>
    ensures { (globals : ℕ) → Judges (spec.judged_item globals (plain_state globals unit.old) (plain_tree tree.now) (plain_trees behind.now)) (λ u. plain_state globals unit.new) used.old used.new result }
{
    match tree {
        Tree::Leaf(_) => Err(ElabError::Memory),
        Tree::Node(kind, parts) => judge_by_kind(alloc, unit, used, *kind, parts, behind),
    }
}

fn behind(parts: &[Tree], i: usize) -> &[Tree]
    requires { i < length parts.now }
    ensures { result.now ≡ drop (i + 1) parts.now }
{
    &parts[i + 1..]
}

/// The items of a unit, one after the other.
pub fn judge_items(
    alloc: Global,
    unit: &mut Unit,
    used: &mut Used,
    parts: &[Tree],
) -> Result<(), ElabError>
    ensures { (globals : ℕ) → Judges (spec.judged_file_items globals (plain_state globals unit.old) (plain_trees parts.now)) (λ u. plain_state globals unit.new) used.old used.new result }
{
    for i in 0..parts.len() {
        judge_item(alloc, unit, used, &parts[i], behind(parts, i))?;
    }
    Ok(())
}
