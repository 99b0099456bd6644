//! The members of structs (6.7.2.1).
ghost use Rattle.std.specs.Prelude.{◌≡◌, None, not, is_some, length, OnOk};
ghost use Rattle.c_text.specs.Token.{plain_token};
ghost use Rattle.c_types.specs.Types.{plain_type};
ghost use Rattle.c_tree.specs.Trees.{node, plain_tree, plain_trees};
ghost use Rattle.core_meaning.specs.Entities.{with_entry};
ghost use Rattle.core_meaning.specs.UnitNames as spec;
ghost use Rattle.plain_scope.specs.PlainScope.{plain_scope, entry_of};
ghost use Rattle.plain_scope.specs.Judgements.{Answers, Judges};
ghost use Rattle.plain_structs.specs.PlainMembers.{plain_members};
ghost use Rattle.plain_structs.specs.Members.{complete_member, typed_member};

use c_text::Token;
use c_tree::{Kind, Tree};
use c_types::{CType, Member};
use cond_formula::NoMemory;
use core_meaning::TypeKind;
use plain_declarators::{name_in, object_type};
use plain_expressions::scalars_with;
use plain_scope::{ElabError, Scope, Used, unless};
use std::alloc::Global;
use std::collections::HashMap;

/// A struct's members while they are declared.
#[derive(Drop)]
pub struct Members {
    pub members: Vec<Member>,
    pub numbers: HashMap<Vec<u8>, u32>,
    /// How many scalars they have.
    pub scalars: u64,
}

fn enter_number(
    alloc: Global,
    numbers: &mut HashMap<Vec<u8>, u32>,
    name: &[u8],
    number: u32,
) -> Result<(), NoMemory>
    ensures { OnOk result (entry_of numbers.new ≡ with_entry (entry_of numbers.old) name.now number) }
{
    numbers.insert(Vec::from_slice(alloc, name)?, number)?;
    Ok(())
}

#[tactic(auto, using(plain_declarators::specs::Bound::struct_numbers))]
fn add_member(
    alloc: Global,
    scope: &Scope,
    known: &mut Members,
    name: &[u8],
    number: u32,
    ty: CType,
) -> Result<(), NoMemory>
    requires { number ≡ length known.old.members.items }
    ensures { OnOk result (plain_members known.new ≡ spec.with_member (plain_scope scope.now).structs (plain_members known.old) name.now (plain_type ty)) }
{
    known.scalars = scalars_with(scope, known.scalars, &ty);
    enter_number(alloc, &mut known.numbers, name, number)?;
    let name = Vec::from_slice(alloc, name)?;
    known.members.push(Member { name, ty })?;
    Ok(())
}

/// A member of a type that must be complete.
#[tactic(auto, using(plain_declarators::specs::Sequences::passed_is, plain_declarators::specs::Sequences::failed_refused))]
fn complete_member(
    alloc: Global,
    scope: &Scope,
    known: &mut Members,
    ty: CType,
    name: &Token,
) -> Result<(), ElabError>
    ensures { Answers (complete_member (plain_scope scope.now) (plain_members known.old) (plain_type ty) (plain_token name.now)) (λ u. plain_members known.new) result }
{
    let complete = scope.is_complete(&ty);
    unless(complete, TypeKind::Incomplete, name)?;
    let Ok(number) = u32::try_from(known.members.len()) else {
        return Err(ElabError::Memory);
    };
    add_member(alloc, scope, known, name.text.as_slice(), number, ty)?;
    Ok(())
}

#[tactic(auto, using(plain_declarators::specs::Sequences::gives_as, plain_declarators::specs::Sequences::refused_behind, plain_scope::specs::JudgementLaws::refused_first))]
fn typed_member(
    alloc: Global,
    scope: &Scope,
    used: &mut Used,
    known: &mut Members,
    base: &CType,
    kind: Kind,
    parts: &[Tree],
    name: &Token,
) -> Result<(), ElabError>
    ensures { Judges (typed_member (plain_scope scope.now) (plain_members known.old) (plain_type base.now) kind (plain_trees parts.now) (plain_token name.now)) (λ u. plain_members known.new) used.old used.new result }
{
    let ty = object_type(alloc, scope, used, base, kind, parts, name, None)?;
    complete_member(alloc, scope, known, ty, name)
}

fn is_new_member(known: &Members, name: &[u8]) -> bool
    ensures { result ≡ not (is_some ((plain_members known.now).numbers name.now)) }
{
    known.numbers.get(name).is_none()
}

/// A member of the struct with this number.
#[tactic(auto, using(plain_declarators::specs::Sequences::passed_gives, plain_declarators::specs::Sequences::passed_refused, plain_declarators::specs::Sequences::failed_refused, crate::specs::Members::member_bound, crate::specs::Members::member_refused))]
fn declared_member(
    alloc: Global,
    scope: &Scope,
    used: &mut Used,
    number: u32,
    known: &mut Members,
    base: &CType,
    kind: Kind,
    parts: &[Tree],
    name: &Token,
) -> Result<(), ElabError>
    ensures { Judges (spec.declared_member (plain_scope scope.now) number (plain_members known.old) (plain_type base.now) kind (plain_trees parts.now) (plain_token name.now)) (λ u. plain_members known.new) used.old used.new result }
{
    unless(
        is_new_member(known, name.text.as_slice()),
        TypeKind::Redeclared,
        name,
    )?;
    typed_member(alloc, scope, used, known, base, kind, parts, name)
}

#[tactic(auto, using(crate::specs::Members::named_gives, crate::specs::Members::named_refused))]
fn named_member(
    alloc: Global,
    scope: &Scope,
    used: &mut Used,
    number: u32,
    known: &mut Members,
    base: &CType,
    kind: Kind,
    parts: &[Tree],
) -> Result<(), ElabError>
    ensures { Judges (spec.one_member (plain_scope scope.now) number (plain_members known.old) (plain_type base.now) (node kind (plain_trees parts.now))) (λ u. plain_members known.new) used.old used.new result }
{
    match name_in(parts) {
        Some(name) => declared_member(alloc, scope, used, number, known, base, kind, parts, name),
        None => Err(ElabError::Memory),
    }
}

#[tactic(auto, using(c_tree::specs::TreeLaws::tree_kinds))]
fn one_member(
    alloc: Global,
    scope: &Scope,
    used: &mut Used,
    number: u32,
    known: &mut Members,
    base: &CType,
    tree: &Tree,
) -> Result<(), ElabError>
    ensures { Judges (spec.one_member (plain_scope scope.now) number (plain_members known.old) (plain_type base.now) (plain_tree tree.now)) (λ u. plain_members known.new) used.old used.new result }
{
    match tree {
        Tree::Leaf(_) => Err(ElabError::Memory),
        Tree::Node(kind, parts) => named_member(
            alloc, scope, used, number, known, base, *kind, parts,
        ),
    }
}

/// The members of a list of declarators, one after the other.
pub fn members_from(
    alloc: Global,
    scope: &Scope,
    used: &mut Used,
    number: u32,
    known: &mut Members,
    base: &CType,
    list: &[Tree],
) -> Result<(), ElabError>
    ensures { Judges (spec.members_from (plain_scope scope.now) number (plain_members known.old) (plain_type base.now) (plain_trees list.now)) (λ u. plain_members known.new) used.old used.new result }
{
    let mut place = 0;
    while place < list.len() {
        one_member(alloc, scope, used, number, known, base, &list[place])?;
        if list.len() - place == 1 {
            return Ok(());
        }
        place += 2;
    }
    Err(ElabError::Memory)
}
