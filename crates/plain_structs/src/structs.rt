//! The definitions of structs (6.7.2.1, 6.7.2.3).
ghost use Rattle.std.specs.Prelude.{◌≡◌, map, option_map};
ghost use Rattle.c_text.specs.Token.{plain_token};
ghost use Rattle.c_types.specs.Types.{plain_type};
ghost use Rattle.c_tree.specs.Trees.{plain_tree, plain_trees};
ghost use Rattle.core_meaning.specs.UnitNames as spec;
ghost use Rattle.plain_scope.specs.PlainScope.{plain_scope, plain_struct};
ghost use Rattle.plain_scope.specs.Judgements.{Judges};
ghost use Rattle.plain_structs.specs.PlainMembers.{plain_members};
ghost use Rattle.plain_structs.specs.Structs.{no_members, all_as, members_by, member_declaration, finished, struct_members, struct_by_words, struct_of_tag, struct_of};

use crate::members::{Members, members_from};
use c_text::Token;
use c_tree::Tree;
use c_types::CType;
use core_meaning::TypeKind;
use plain_declarators::{declared_base, name_in, node_parts, three_parts};
use plain_scope::{ElabError, Scope, Struct, Used, unless};
use std::alloc::Global;
use std::collections::HashMap;

// ---- members

/// A declaration of members by its words and declarators.
#[tactic(auto, using(plain_declarators::specs::Bound::base_gives, plain_declarators::specs::Bound::base_refused, plain_declarators::specs::Sequences::gives_as, plain_scope::specs::JudgementLaws::refused_first))]
fn members_by(
    alloc: Global,
    scope: &mut Scope,
    used: &mut Used,
    number: u32,
    known: &mut Members,
    words: &[Tree],
    list: &[Tree],
) -> Result<(), ElabError>
    ensures { Judges (members_by (plain_scope scope.old) number (plain_members known.old) (plain_trees words.now) (plain_trees list.now)) (λ u. all_as (plain_scope scope.new) (plain_members known.new)) used.old used.new result }
{
    let base = declared_base(alloc, scope, words)?;
    members_from(alloc, scope, used, number, known, &base, list)
}

fn member_declaration(
    alloc: Global,
    scope: &mut Scope,
    used: &mut Used,
    number: u32,
    known: &mut Members,
    tree: &Tree,
) -> Result<(), ElabError>
    ensures { Judges (member_declaration (plain_scope scope.old) number (plain_members known.old) (plain_tree tree.now)) (λ u. all_as (plain_scope scope.new) (plain_members known.new)) used.old used.new result }
{
    let parts = node_parts(tree)?;
    let (words, list, _) = three_parts(parts)?;
    let words = node_parts(words)?;
    let list = node_parts(list)?;
    members_by(alloc, scope, used, number, known, words, list)
}

fn no_members(alloc: Global) -> Members
    ensures { plain_members result ≡ no_members }
{
    Members {
        members: Vec::new(alloc),
        numbers: HashMap::new(alloc),
        scalars: 0,
    }
}

/// All members of a struct.
fn all_members(
    alloc: Global,
    scope: &mut Scope,
    used: &mut Used,
    number: u32,
    list: &[Tree],
) -> Result<Members, ElabError>
    ensures { Judges (spec.all_members (plain_scope scope.old) number no_members (plain_trees list.now)) (λ known. all_as (plain_scope scope.new) (plain_members known)) used.old used.new result }
{
    let mut known = no_members(alloc);
    for i in 0..list.len() {
        member_declaration(alloc, scope, used, number, &mut known, &list[i])?;
    }
    Ok(known)
}

// ---- structs

fn complete(s: &mut Struct, known: Members)
    ensures { plain_struct s.new ≡ spec.completed (plain_members known) (plain_struct s.old) }
{
    let Members {
        members,
        numbers,
        scalars,
    } = known;
    s.members = members;
    s.numbers = numbers;
    s.scalars = scalars;
    s.complete = true;
}

fn complete_at(structs: &mut [Struct], number: usize, known: Members)
    ensures { map plain_struct structs.new ≡ spec.with_members_at number (plain_members known) (map plain_struct structs.old) }
{
    if number < structs.len() {
        complete(&mut structs[number], known);
    } else {
        drop(known);
    }
}

fn complete_struct(scope: &mut Scope, number: u32, known: Members)
    ensures { plain_scope scope.new ≡ finished number (all_as (plain_scope scope.old) (plain_members known)) }
{
    complete_at(scope.structs.as_mut_slice(), number as usize, known);
}

/// The members of a struct that is declared, behind which it is complete.
#[tactic(auto, using(plain_declarators::specs::Sequences::gives_as, plain_scope::specs::JudgementLaws::refused_first))]
fn struct_members(
    alloc: Global,
    scope: &mut Scope,
    used: &mut Used,
    number: u32,
    list: &[Tree],
) -> Result<(), ElabError>
    ensures { Judges (struct_members (plain_scope scope.old) number (plain_trees list.now)) (λ u. plain_scope scope.new) used.old used.new result }
{
    let known = all_members(alloc, scope, used, number, list)?;
    complete_struct(scope, number, known);
    Ok(())
}

#[tactic(auto, using(c_types::specs::TypeLaws::type_kinds))]
fn number_of_struct(ty: &CType) -> u32
    ensures { result ≡ spec.number_of_struct (plain_type ty.now) }
{
    match ty {
        CType::Struct(number) => *number,
        CType::Void
        | CType::Char
        | CType::UChar
        | CType::Int
        | CType::UInt
        | CType::Long
        | CType::ULong
        | CType::Pointer(_)
        | CType::Array(..) => 0,
    }
}

#[tactic(auto, using(plain_declarators::specs::Bound::base_gives, plain_declarators::specs::Bound::base_refused, plain_scope::specs::JudgementLaws::refused_first))]
fn struct_by_words(
    alloc: Global,
    scope: &mut Scope,
    used: &mut Used,
    words: &[Tree],
    list: &[Tree],
) -> Result<(), ElabError>
    ensures { Judges (struct_by_words (plain_scope scope.old) (plain_trees words.now) (plain_trees list.now)) (λ u. plain_scope scope.new) used.old used.new result }
{
    let base = declared_base(alloc, scope, words)?;
    struct_members(alloc, scope, used, number_of_struct(&base), list)
}

fn is_complete_struct(found: Option<&Struct>) -> bool
    ensures { result ≡ spec.is_defined_struct (option_map (λ s. plain_struct s.now) found.entry) }
{
    match found {
        Some(found) => found.complete,
        None => false,
    }
}

/// Whether the struct with a tag is defined.
fn is_defined_tag(scope: &Scope, tag: &[u8]) -> bool
    ensures { result ≡ spec.is_defined_tag (plain_scope scope.now) ((plain_scope scope.now).tags tag.now) }
{
    match scope.tagged(tag) {
        Some(number) => is_complete_struct(scope.struct_of(number)),
        None => false,
    }
}

#[tactic(auto, using(plain_declarators::specs::Sequences::passed_gives, plain_declarators::specs::Sequences::passed_refused, plain_declarators::specs::Sequences::failed_refused))]
fn struct_of_tag(
    alloc: Global,
    scope: &mut Scope,
    used: &mut Used,
    tag: &Token,
    words: &[Tree],
    list: &[Tree],
) -> Result<(), ElabError>
    ensures { Judges (struct_of_tag (plain_scope scope.old) (plain_token tag.now) (plain_trees words.now) (plain_trees list.now)) (λ u. plain_scope scope.new) used.old used.new result }
{
    let new = !is_defined_tag(scope, tag.text.as_slice());
    unless(new, TypeKind::Redeclared, tag)?;
    struct_by_words(alloc, scope, used, words, list)
}

/// The definition of a struct, which is declared by its tag and complete behind its last member.
#[tactic(auto, using(crate::specs::Structs::tagged_gives, crate::specs::Structs::tagged_refused))]
pub fn define_struct(
    alloc: Global,
    scope: &mut Scope,
    used: &mut Used,
    words: &[Tree],
    list: &[Tree],
) -> Result<(), ElabError>
    ensures { Judges (struct_of (plain_scope scope.old) (plain_trees words.now) (plain_trees list.now)) (λ u. plain_scope scope.new) used.old used.new result }
{
    match name_in(words) {
        Some(tag) => struct_of_tag(alloc, scope, used, tag, words, list),
        None => Err(ElabError::Memory),
    }
}
