//! Objects whose structs are completed later in the unit (6.9.2).
ghost use Rattle.std.specs.Prelude.{◌≡◌, option_map};
ghost use Rattle.c_text.specs.Token.{plain_token};
ghost use Rattle.c_types.specs.Types.{plain_type};
ghost use Rattle.c_tree.specs.Trees.{node, plain_tree, plain_trees};
ghost use Rattle.core_meaning.specs.UnitNames as spec;
ghost use Rattle.plain_scope.specs.PlainScope.{plain_scope, plain_struct};
ghost use Rattle.plain_scope.specs.Judgements.{Answers};
ghost use Rattle.plain_objects.specs.PlainStates.{plain_storage};
ghost use Rattle.plain_objects.specs.Completion.{is_name, names_tag, first_names};

use crate::names::Storage;
use c_text::Token;
use c_tree::{Kind, Tree};
use c_types::CType;
use plain_declarators::{judge_object, name_in};
use plain_scope::{ElabError, Scope, Struct, is_void};

fn is_name(tag: &[u8], name: Option<&Token>) -> bool
    ensures { result ≡ is_name tag.now (option_map (λ t. plain_token t.now) name.entry) }
{
    match name {
        Some(name) => name.text.as_slice() == tag,
        None => false,
    }
}

#[tactic(auto, using(c_tree::specs::TreeLaws::tree_kinds))]
fn names_tag(tag: &[u8], tree: &Tree) -> bool
    ensures { result ≡ names_tag tag.now (plain_tree tree.now) }
{
    match tree {
        Tree::Leaf(_) => false,
        Tree::Node(_, words) => is_name(tag, name_in(words)),
    }
}

fn first_names(tag: &[u8], parts: &[Tree]) -> bool
    ensures { result ≡ first_names tag.now (plain_trees parts.now) }
{
    match parts.split_first() {
        Some((first, _)) => names_tag(tag, first),
        None => false,
    }
}

#[tactic(auto, using(crate::specs::UnitShapes::completing))]
fn completes_by(tag: &[u8], kind: Kind, parts: &[Tree]) -> bool
    ensures { result ≡ spec.completes tag.now (node kind (plain_trees parts.now)) }
{
    match kind {
        Kind::StructDefinition => first_names(tag, parts),
        _ => false,
    }
}

/// Whether an item defines the struct with a tag.
#[tactic(auto, using(c_tree::specs::TreeLaws::tree_kinds))]
fn completes(tag: &[u8], tree: &Tree) -> bool
    ensures { result ≡ spec.completes tag.now (plain_tree tree.now) }
{
    match tree {
        Tree::Leaf(_) => false,
        Tree::Node(kind, parts) => completes_by(tag, *kind, parts),
    }
}

fn is_completed_in(tag: &[u8], rest: &[Tree]) -> bool
    ensures { result ≡ spec.is_completed_in tag.now (plain_trees rest.now) }
{
    for tree in rest {
        if completes(tag, tree) {
            return true;
        }
    }
    false
}

fn struct_is_completed(found: Option<&Struct>, rest: &[Tree]) -> bool
    ensures { result ≡ spec.struct_is_completed (option_map (λ s. plain_struct s.now) found.entry) (plain_trees rest.now) }
{
    match found {
        Some(found) => is_completed_in(found.name.as_slice(), rest),
        None => false,
    }
}

#[tactic(auto, using(c_types::specs::TypeLaws::type_kinds))]
fn is_completed_later(scope: &Scope, ty: &CType, rest: &[Tree]) -> bool
    ensures { result ≡ spec.is_completed_later (plain_scope scope.now).structs (plain_type ty.now) (plain_trees rest.now) }
{
    match ty {
        CType::Struct(number) => struct_is_completed(scope.struct_of(*number), rest),
        CType::Void
        | CType::Char
        | CType::UChar
        | CType::Int
        | CType::UInt
        | CType::Long
        | CType::ULong
        | CType::Pointer(_)
        | CType::Array(..) => false,
    }
}

fn may_be_incomplete(
    storage: Storage,
    initialised: bool,
    scope: &Scope,
    ty: &CType,
    rest: &[Tree],
) -> bool
    ensures { result ≡ spec.may_be_incomplete (plain_storage storage) initialised (plain_scope scope.now).structs (plain_type ty.now) (plain_trees rest.now) }
{
    match storage {
        Storage::Static => false,
        Storage::Extern => !initialised && !is_void(ty),
        Storage::Absent => !initialised && is_completed_later(scope, ty, rest),
    }
}

/// Judges the type of an object of file scope, with what stands behind it in the unit.
pub fn judge_global(
    storage: Storage,
    initialised: bool,
    scope: &Scope,
    ty: &CType,
    name: &Token,
    rest: &[Tree],
) -> Result<(), ElabError>
    ensures { Answers (spec.judged_global (plain_storage storage) initialised (plain_scope scope.now) (plain_type ty.now) (plain_token name.now) (plain_trees rest.now)) (λ u. tt) result }
{
    if !scope.is_complete(ty) && may_be_incomplete(storage, initialised, scope, ty, rest) {
        Ok(())
    } else {
        judge_object(scope, ty, name)
    }
}
