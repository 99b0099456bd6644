//! Types by their words and declarators (6.7.2, 6.7.6).
ghost use Rattle.std.specs.Prelude.{◌≡◌, true, false, None, IfOk, MatchResult, option_map};
ghost use Rattle.c_text.specs.Token.{plain_token};
ghost use Rattle.c_types.specs.Types.{plain_type};
ghost use Rattle.c_tree.specs.Trees.{node, plain_tree, plain_trees};
ghost use Rattle.core_meaning.specs.Constancy as constancy;
ghost use Rattle.core_meaning.specs.Declarations as spec;
ghost use Rattle.plain_scope.specs.PlainScope.{plain_scope};
ghost use Rattle.plain_scope.specs.Judgements.{Answers, AnswersBound, Judges};
ghost use Rattle.plain_declarators.specs.PlainBased.{plain_based};

use crate::shapes::entries_in;
use crate::words::{behind_word, count_of_stars, is_left_out, name_in};
use c_text::Token;
use c_tree::{Kind, Terminal, Tree};
use c_types::CType;
use cond_formula::NoMemory;
use core_meaning::TypeKind;
use plain_expressions::{MOST_ELEMENTS, count, entry_count, is_small, text_bytes};
use plain_scope::{
    ElabError, Scope, Used, arithmetic_words, copied, has_terminal, parts_of, refused, unless,
};
use std::alloc::Global;

// ---- types by words

#[tactic(auto, using(c_types::specs::TypeLaws::type_kinds, crate::specs::Bound::tag_found, crate::specs::Bound::tag_missing))]
fn known_tag(scope: &Scope, tag: &Token) -> Result<CType, ElabError>
    ensures { AnswersBound (spec.based_on_tag false (plain_scope scope.now) (plain_token tag.now) ((plain_scope scope.now).tags tag.now.text.items)) (plain_based scope.now) result }
{
    match scope.tagged(tag.text.as_slice()) {
        Some(number) => Ok(CType::Struct(number)),
        None => Err(refused(TypeKind::Undeclared, tag)),
    }
}

/// The type that words name where they declare no struct.
pub fn base_of(scope: &Scope, words: &[Tree]) -> Result<CType, ElabError>
    ensures { AnswersBound (spec.based false (plain_scope scope.now) (plain_trees words.now)) (plain_based scope.now) result }
{
    if !has_terminal(words, Terminal::Struct) {
        return Ok(arithmetic_words(words));
    }
    match name_in(words) {
        Some(tag) => known_tag(scope, tag),
        None => Err(ElabError::Memory),
    }
}

#[tactic(auto, using(c_types::specs::TypeLaws::type_kinds, crate::specs::Bound::tag_declared, crate::specs::Bound::struct_numbers))]
fn new_tag(alloc: Global, scope: &mut Scope, tag: &Token) -> Result<CType, ElabError>
    requires { (plain_scope scope.old).tags tag.now.text.items ≡ None }
    ensures { AnswersBound (spec.based_on_tag true (plain_scope scope.old) (plain_token tag.now) ((plain_scope scope.old).tags tag.now.text.items)) (plain_based scope.new) result }
{
    let Ok(number) = u32::try_from(scope.structs.len()) else {
        return Err(ElabError::Memory);
    };
    scope.declare_struct(alloc, tag.text.as_slice(), number)?;
    Ok(CType::Struct(number))
}

#[tactic(auto, using(c_types::specs::TypeLaws::type_kinds, crate::specs::Bound::tag_found))]
fn tagged(alloc: Global, scope: &mut Scope, tag: &Token) -> Result<CType, ElabError>
    ensures { AnswersBound (spec.based_on_tag true (plain_scope scope.old) (plain_token tag.now) ((plain_scope scope.old).tags tag.now.text.items)) (plain_based scope.new) result }
{
    match scope.tagged(tag.text.as_slice()) {
        Some(number) => Ok(CType::Struct(number)),
        None => new_tag(alloc, scope, tag),
    }
}

/// The type that words name at file scope, where they may declare a struct.
pub fn declared_base(alloc: Global, scope: &mut Scope, words: &[Tree]) -> Result<CType, ElabError>
    ensures { AnswersBound (spec.based true (plain_scope scope.old) (plain_trees words.now)) (plain_based scope.new) result }
{
    if !has_terminal(words, Terminal::Struct) {
        return Ok(arithmetic_words(words));
    }
    match name_in(words) {
        Some(tag) => tagged(alloc, scope, tag),
        None => Err(ElabError::Memory),
    }
}

// ---- declarators

/// The type behind a declarator's stars.
#[tactic(auto, using(c_types::specs::TypeLaws::type_kinds, crate::specs::Bound::one_more_pointer))]
pub fn starred(alloc: Global, parts: &[Tree], base: &CType) -> Result<CType, NoMemory>
    ensures { IfOk result (λ ty. plain_type ty ≡ spec.starred (plain_trees parts.now) (plain_type base.now)) }
{
    let mut ty = copied(alloc, base)?;
    for _ in 0..count_of_stars(parts) {
        ty = CType::Pointer(Box::new(alloc, ty)?);
    }
    Ok(ty)
}

/// Whether a type is that of a character of a text.
#[tactic(auto, using(c_types::specs::TypeLaws::type_kinds))]
pub fn is_character_type(ty: &CType) -> bool
    ensures { result ≡ constancy.is_character_type (plain_type ty.now) }
{
    match ty {
        CType::Char | CType::UChar => true,
        CType::Void
        | CType::Int
        | CType::UInt
        | CType::Long
        | CType::ULong
        | CType::Pointer(_)
        | CType::Array(..)
        | CType::Struct(_) => false,
    }
}

/// How many elements a text gives an array of this type, or 1 where it gives none.
fn counted_by_text(alloc: Global, element: &CType, parts: &[Tree]) -> Result<usize, ElabError>
    ensures { MatchResult result (λ n. n ≡ spec.count_or_one (constancy.counted_by_text (plain_type element.now) (plain_trees parts.now))) (λ error. error ≡ ElabError.Memory) }
{
    if is_character_type(element) {
        let bytes = text_bytes(alloc, parts)?;
        Ok(bytes.len() + 1)
    } else {
        Ok(1)
    }
}

#[tactic(auto, using(crate::specs::Shapes::counted_in_braces))]
fn counted_by_braces(element: &CType, parts: &[Tree]) -> Result<usize, ElabError>
    ensures { MatchResult result (λ n. n ≡ spec.count_or_one (constancy.count_by_initialiser (plain_type element.now) (node Kind.Braces (plain_trees parts.now)))) (λ error. error ≡ ElabError.Memory) }
{
    let entries = entries_in(parts)?;
    Ok(entry_count(entries))
}

/// How many elements an initialiser gives an array of this type, or 1 where it gives none.
#[tactic(auto, using(c_tree::specs::TreeLaws::tree_kinds))]
fn count_given(alloc: Global, element: &CType, initialiser: &Tree) -> Result<usize, ElabError>
    ensures { MatchResult result (λ n. n ≡ spec.count_or_one (constancy.count_by_initialiser (plain_type element.now) (plain_tree initialiser.now))) (λ error. error ≡ ElabError.Memory) }
{
    match initialiser {
        Tree::Leaf(_) => Ok(1),
        Tree::Node(kind, parts) => match kind {
            Kind::Braces => {
                let count = counted_by_braces(element, parts)?;
                Ok(count)
            }
            Kind::Texts => {
                let count = counted_by_text(alloc, element, parts)?;
                Ok(count)
            }
            _ => Ok(1),
        },
    }
}

fn count_without_size(
    alloc: Global,
    element: &CType,
    name: &Token,
    initialiser: Option<&Tree>,
) -> Result<u32, ElabError>
    ensures { Answers (spec.count_without_size (plain_type element.now) (plain_token name.now) (option_map (λ t. plain_tree t.now) initialiser.entry)) (λ n. n) result }
{
    let Some(initialiser) = initialiser else {
        return Err(refused(TypeKind::Incomplete, name));
    };
    let count = count_given(alloc, element, initialiser)?;
    unless(count <= MOST_ELEMENTS as usize, TypeKind::BadConstant, name)?;
    Ok(count as u32)
}

/// The size of an array, which is constant and written.
pub fn count_of_size(
    alloc: Global,
    scope: &Scope,
    used: &mut Used,
    name: &Token,
    size: Option<&Tree>,
) -> Result<u32, ElabError>
    ensures { Judges (spec.count_of_size (plain_scope scope.now) (plain_token name.now) (option_map (λ t. plain_tree t.now) size.entry)) (λ n. n) used.old used.new result }
{
    match size {
        Some(size) => {
            let n = count(alloc, scope, used, size, name)?;
            Ok(n)
        }
        None => Err(ElabError::Memory),
    }
}

/// Whether the brackets of an array have no size in them.
pub fn has_no_size(size: Option<&Tree>) -> bool
    ensures { result ≡ spec.is_left_out (option_map (λ t. plain_tree t.now) size.entry) }
{
    match size {
        Some(size) => is_left_out(size),
        None => false,
    }
}

/// How many elements an array has: without a size, as many as its initialiser gives (6.7.9).
#[tactic(auto, using(plain_scope::specs::JudgementLaws::gives_nothing_used))]
fn element_count(
    alloc: Global,
    scope: &Scope,
    used: &mut Used,
    element: &CType,
    name: &Token,
    size: Option<&Tree>,
    initialiser: Option<&Tree>,
) -> Result<u32, ElabError>
    ensures { Judges (spec.element_count (plain_scope scope.now) (plain_type element.now) (plain_token name.now) (option_map (λ t. plain_tree t.now) size.entry) (option_map (λ t. plain_tree t.now) initialiser.entry)) (λ n. n) used.old used.new result }
{
    if has_no_size(size) {
        let n = count_without_size(alloc, element, name, initialiser)?;
        Ok(n)
    } else {
        let n = count_of_size(alloc, scope, used, name, size)?;
        Ok(n)
    }
}

#[tactic(auto, using(c_types::specs::TypeLaws::type_kinds, crate::specs::Sequences::passed_gives, crate::specs::Sequences::passed_refused, crate::specs::Sequences::failed_refused, crate::specs::Sequences::gives_as, plain_scope::specs::JudgementLaws::refused_first))]
fn array_type(
    alloc: Global,
    scope: &Scope,
    used: &mut Used,
    base: &CType,
    parts: &[Tree],
    name: &Token,
    initialiser: Option<&Tree>,
) -> Result<CType, ElabError>
    ensures { Judges (spec.object_type (plain_scope scope.now) (plain_type base.now) Kind.ArrayDeclarator (plain_trees parts.now) (plain_token name.now) (option_map (λ t. plain_tree t.now) initialiser.entry)) plain_type used.old used.new result }
{
    let ty = starred(alloc, parts, base)?;
    unless(scope.is_complete(&ty), TypeKind::Incomplete, name)?;
    let size = behind_word(parts, Terminal::OpenBracket);
    let count = element_count(alloc, scope, used, &ty, name, size, initialiser)?;
    Ok(CType::Array(Box::new(alloc, ty)?, count))
}

/// The type of an object's declarator.
#[tactic(auto, using(plain_scope::specs::JudgementLaws::gives_nothing_used))]
pub fn object_type(
    alloc: Global,
    scope: &Scope,
    used: &mut Used,
    base: &CType,
    kind: Kind,
    parts: &[Tree],
    name: &Token,
    initialiser: Option<&Tree>,
) -> Result<CType, ElabError>
    ensures { Judges (spec.object_type (plain_scope scope.now) (plain_type base.now) kind (plain_trees parts.now) (plain_token name.now) (option_map (λ t. plain_tree t.now) initialiser.entry)) plain_type used.old used.new result }
{
    match kind {
        Kind::ArrayDeclarator => {
            let ty = array_type(alloc, scope, used, base, parts, name, initialiser)?;
            Ok(ty)
        }
        Kind::Declarator => {
            let ty = starred(alloc, parts, base)?;
            Ok(ty)
        }
        _ => Err(ElabError::Memory),
    }
}

/// An object of a type that is complete and small enough.
#[tactic(auto, using(crate::specs::Sequences::both_passed, crate::specs::Sequences::failed_refused, crate::specs::Sequences::passed_refused, crate::specs::Sequences::test_refused))]
pub fn judge_object(scope: &Scope, ty: &CType, name: &Token) -> Result<(), ElabError>
    ensures { Answers (spec.judged_object (plain_scope scope.now) (plain_type ty.now) (plain_token name.now)) (λ u. tt) result }
{
    unless(scope.is_complete(ty), TypeKind::Incomplete, name)?;
    unless(is_small(scope, ty), TypeKind::BadConstant, name)?;
    Ok(())
}
