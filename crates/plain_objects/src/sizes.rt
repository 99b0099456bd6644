//! Objects that are too big once the structs of their unit are complete (6.9.2).
ghost use Rattle.std.specs.Prelude.{◌≡◌, option_map};
ghost use Rattle.c_text.specs.Token.{plain_token};
ghost use Rattle.c_tree.specs.Trees.{node, plain_tree, plain_trees};
ghost use Rattle.core_meaning.specs.UnitNames as spec;
ghost use Rattle.plain_scope.specs.PlainScope.{plain_scope, plain_file_name, plain_sort};
ghost use Rattle.plain_scope.specs.Judgements.{Answers};
ghost use Rattle.plain_objects.specs.Sizes.{too_big_listed};

use c_text::Token;
use c_tree::{Kind, Tree};
use core_meaning::TypeKind;
use plain_declarators::name_in;
use plain_expressions::is_small;
use plain_scope::{ElabError, FileName, Scope, Sort, refused};

fn is_big(scope: &Scope, sort: &Sort) -> bool
    ensures { result ≡ spec.is_big (plain_scope scope.now) (plain_sort sort.now) }
{
    match sort {
        Sort::Variable(ty) => !is_small(scope, ty),
        Sort::Function(_) => false,
    }
}

fn is_too_big(scope: &Scope, found: Option<&FileName>) -> bool
    ensures { result ≡ spec.is_too_big (plain_scope scope.now) (option_map (λ n. plain_file_name n.now) found.entry) }
{
    match found {
        Some(found) => is_big(scope, &found.sort),
        None => false,
    }
}

fn names_too_big(scope: &Scope, name: &Token) -> bool
    ensures { result ≡ spec.is_too_big (plain_scope scope.now) ((plain_scope scope.now).file_names name.now.text.items) }
{
    is_too_big(scope, scope.file_names.get(name.text.as_slice()))
}

fn name_if_too_big<'t>(scope: &Scope, name: Option<&'t Token>) -> Option<&'t Token>
    ensures { option_map (λ t. plain_token t.now) result ≡ spec.name_if_too_big (plain_scope scope.now) (option_map (λ t. plain_token t.now) name.entry) }
{
    let name = name?;
    if names_too_big(scope, name) {
        Some(name)
    } else {
        None
    }
}

#[tactic(auto, using(crate::specs::Sizes::no_declarator))]
fn by_kind<'t>(scope: &Scope, kind: Kind, parts: &'t [Tree]) -> Option<&'t Token>
    ensures { option_map (λ t. plain_token t.now) result ≡ spec.too_big_declarator (plain_scope scope.now) (node kind (plain_trees parts.now)) }
{
    match kind {
        Kind::Declarator => name_if_too_big(scope, name_in(parts)),
        _ => None,
    }
}

#[tactic(auto, using(c_tree::specs::TreeLaws::tree_kinds))]
fn too_big_declarator<'t>(scope: &Scope, tree: &'t Tree) -> Option<&'t Token>
    ensures { option_map (λ t. plain_token t.now) result ≡ spec.too_big_declarator (plain_scope scope.now) (plain_tree tree.now) }
{
    match tree {
        Tree::Leaf(_) => None,
        Tree::Node(kind, parts) => by_kind(scope, *kind, parts),
    }
}

fn too_big_among<'t>(scope: &Scope, list: &'t [Tree]) -> Option<&'t Token>
    ensures { option_map (λ t. plain_token t.now) result ≡ spec.too_big_among (plain_scope scope.now) (plain_trees list.now) }
{
    for tree in list {
        if let Some(name) = too_big_declarator(scope, tree) {
            return Some(name);
        }
    }
    None
}

#[tactic(auto, using(c_tree::specs::TreeLaws::tree_kinds))]
fn too_big_listed<'t>(scope: &Scope, list: &'t Tree) -> Option<&'t Token>
    ensures { option_map (λ t. plain_token t.now) result ≡ too_big_listed (plain_scope scope.now) (plain_tree list.now) }
{
    match list {
        Tree::Leaf(_) => None,
        Tree::Node(_, declarators) => too_big_among(scope, declarators),
    }
}

#[tactic(auto, using(crate::specs::Sizes::declared_by_list))]
fn too_big_declared<'t>(scope: &Scope, parts: &'t [Tree]) -> Option<&'t Token>
    ensures { option_map (λ t. plain_token t.now) result ≡ spec.too_big_declared (plain_scope scope.now) (plain_trees parts.now) }
{
    let (_, rest) = parts.split_first()?;
    let (list, _) = rest.split_first()?;
    too_big_listed(scope, list)
}

#[tactic(auto, using(crate::specs::Sizes::no_declaration))]
fn item_by_kind<'t>(scope: &Scope, kind: Kind, parts: &'t [Tree]) -> Option<&'t Token>
    ensures { option_map (λ t. plain_token t.now) result ≡ spec.too_big_in_item (plain_scope scope.now) (node kind (plain_trees parts.now)) }
{
    match kind {
        Kind::Declaration => too_big_declared(scope, parts),
        _ => None,
    }
}

#[tactic(auto, using(c_tree::specs::TreeLaws::tree_kinds))]
fn too_big_in_item<'t>(scope: &Scope, tree: &'t Tree) -> Option<&'t Token>
    ensures { option_map (λ t. plain_token t.now) result ≡ spec.too_big_in_item (plain_scope scope.now) (plain_tree tree.now) }
{
    match tree {
        Tree::Leaf(_) => None,
        Tree::Node(kind, parts) => item_by_kind(scope, *kind, parts),
    }
}

/// The first name of an object of a unit that is too big.
fn too_big_in<'t>(scope: &Scope, items: &'t [Tree]) -> Option<&'t Token>
    ensures { option_map (λ t. plain_token t.now) result ≡ spec.too_big_in (plain_scope scope.now) (plain_trees items.now) }
{
    for tree in items {
        if let Some(name) = too_big_in_item(scope, tree) {
            return Some(name);
        }
    }
    None
}

/// Judges the sizes of a unit's objects at its end.
#[tactic(auto, using(crate::specs::Sizes::too_big_refused))]
pub fn judge_sizes(scope: &Scope, items: &[Tree]) -> Result<(), ElabError>
    ensures { Answers (spec.unless_too_big (spec.too_big_in (plain_scope scope.now) (plain_trees items.now))) (λ u. tt) result }
{
    match too_big_in(scope, items) {
        Some(name) => Err(refused(TypeKind::BadConstant, name)),
        None => Ok(()),
    }
}
