//! Initialisers (6.7.9).
ghost use Rattle.std.specs.Prelude.{◌≡◌, ◌==◌, ◌&&◌, ◌∷◌, ◌++◌, ◌≤◌, [], nat_lt, length, take, map, pos, true, IfOk, Some, None, option_map, MatchResult, if◌then◌else◌};
ghost use Rattle.text_edits.specs.Span.{plain_span};
ghost use Rattle.c_text.specs.Token.{PlainToken, plain_token};
ghost use Rattle.c_types.specs.Types.{plain_type, structure};
ghost use Rattle.c_types.specs.Integers.{converted};
ghost use Rattle.c_tree.specs.Trees.{node, plain_tree, plain_trees};
ghost use Rattle.core_meaning.specs.Plain.{plain_expression, path_from};
ghost use Rattle.core_meaning.specs.Values.{part};
ghost use Rattle.core_meaning.specs.Entities as entities;
ghost use Rattle.core_meaning.specs.Expressions.{valued};
ghost use Rattle.core_meaning.specs.Constancy as spec;
ghost use Rattle.plain_scope.specs.PlainScope.{plain_scope};
ghost use Rattle.plain_scope.specs.Judgements.{Answers, Judges, RefusedAs};
ghost use Rattle.plain_declarations.specs.PlainDeclared.{plain_initial};
ghost use Rattle.plain_declarations.specs.Entries.{globals_if, entry_initial, text_at, value_at, allowed_value, refused_value, array_from_text, kind_at, excess};

use crate::constants::is_allowed;
use c_text::{FileToken, Token};
use c_tree::{Kind, Tree};
use c_types::{CType, convert};
use cond_formula::NoMemory;
use core_meaning::{Expression, TypeKind};
use plain_declarators::{entries_in, entry_count, is_character_type};
use plain_expressions::{text_bytes, valued};
use plain_operands::fitted;
use plain_scope::{ElabError, Scope, Used, copied, first_token, refused, unless};
use std::alloc::{AllocError, Global};

/// A part of an initialiser: what is written where its path leads to, from the outside in, and its first token.
#[derive(Drop)]
pub struct Initial<'t> {
    pub path: Vec<u32>,
    pub value: Expression,
    pub first: &'t Token,
}

// ---- the parts of an object

#[tactic(auto, using(c_types::specs::TypeLaws::type_kinds))]
fn element_for(
    alloc: Global,
    element: &CType,
    count: u32,
    number: u32,
) -> Result<Option<CType>, NoMemory>
    ensures { IfOk result (λ found. option_map plain_type found ≡ (if nat_lt number count then Some (plain_type element.now) else None)) }
{
    if number < count {
        Ok(Some(copied(alloc, element)?))
    } else {
        Ok(None)
    }
}

fn member_for(alloc: Global, scope: &Scope, s: u32, number: u32) -> Result<Option<CType>, NoMemory>
    ensures { IfOk result (λ found. option_map plain_type found ≡ spec.part_for (plain_scope scope.now).structs (structure s) number) }
{
    let Some(found) = scope.struct_of(s) else {
        return Ok(None);
    };
    match found.member(number) {
        Some(member) => Ok(Some(copied(alloc, &member.ty)?)),
        None => Ok(None),
    }
}

fn whole_for(alloc: Global, ty: &CType, number: u32) -> Result<Option<CType>, NoMemory>
    ensures { IfOk result (λ found. option_map plain_type found ≡ (if number == 0 then Some (plain_type ty.now) else None)) }
{
    if number == 0 {
        Ok(Some(copied(alloc, ty)?))
    } else {
        Ok(None)
    }
}

/// The type of the part that the initialiser with this number in braces is for.
#[tactic(auto, using(c_types::specs::TypeLaws::type_kinds))]
fn part_for(
    alloc: Global,
    scope: &Scope,
    ty: &CType,
    number: u32,
) -> Result<Option<CType>, NoMemory>
    ensures { IfOk result (λ found. option_map plain_type found ≡ spec.part_for (plain_scope scope.now).structs (plain_type ty.now) number) }
{
    match ty {
        CType::Array(element, count) => {
            let found = element_for(alloc, element, *count, number)?;
            Ok(found)
        }
        CType::Struct(s) => {
            let found = member_for(alloc, scope, *s, number)?;
            Ok(found)
        }
        CType::Void
        | CType::Char
        | CType::UChar
        | CType::Int
        | CType::UInt
        | CType::Long
        | CType::ULong
        | CType::Pointer(_) => {
            let found = whole_for(alloc, ty, number)?;
            Ok(found)
        }
    }
}

#[tactic(auto, using(crate::specs::Entries::longer_path))]
fn path_to(alloc: Global, path: &[u32], number: u32) -> Result<Vec<u32>, NoMemory>
    ensures { IfOk result (λ whole. path_from whole.items ≡ part number ∷ path_from path.now) }
{
    let mut whole = Vec::from_slice(alloc, path)?;
    whole.push(number)?;
    Ok(whole)
}

/// The path to the part that the initialiser with this number in braces is for.
#[tactic(auto, using(c_types::specs::TypeLaws::type_kinds))]
fn path_for(alloc: Global, ty: &CType, path: &[u32], number: u32) -> Result<Vec<u32>, NoMemory>
    ensures { IfOk result (λ whole. path_from whole.items ≡ spec.path_for (plain_type ty.now) (path_from path.now) number) }
{
    match ty {
        CType::Array(..) | CType::Struct(_) => {
            let whole = path_to(alloc, path, number)?;
            Ok(whole)
        }
        CType::Void
        | CType::Char
        | CType::UChar
        | CType::Int
        | CType::UInt
        | CType::Long
        | CType::ULong
        | CType::Pointer(_) => {
            let whole = Vec::from_slice(alloc, path)?;
            Ok(whole)
        }
    }
}

// ---- texts

/// The bytes of a text with its last zero, where there is room.
#[tactic(auto, using(crate::specs::Entries::room_for_all, crate::specs::Entries::room_for_none))]
fn with_last_zero(bytes: Vec<u8>, count: u32) -> Result<Vec<u8>, NoMemory>
    requires { length bytes.items ≤ count }
    ensures { IfOk result (λ whole. whole.items ≡ take count (bytes.items ++ 0 ∷ [])) }
{
    let mut bytes = bytes;
    if bytes.len() < count as usize {
        bytes.push(0)?;
    }
    Ok(bytes)
}

#[tactic(auto, using(crate::specs::Entries::characters_are_integers))]
fn byte_value(element: &CType, byte: u8) -> i128
    requires { spec.is_character_type (plain_type element.now) ≡ true }
    ensures { result ≡ converted (plain_type element.now) (pos byte) }
{
    convert(element, i128::from(byte))
}

#[tactic(auto, using(core_meaning::specs::PlainLaws::expression_kinds))]
fn text_part<'t>(
    alloc: Global,
    element: &CType,
    path: &[u32],
    number: usize,
    byte: u8,
    first: &'t Token,
) -> Result<Initial<'t>, NoMemory>
    requires { spec.is_character_type (plain_type element.now) ≡ true }
    ensures { IfOk result (λ part. plain_initial part ≡ text_at (plain_type element.now) (path_from path.now) number byte (plain_token first.now)) }
{
    let Ok(number) = u32::try_from(number) else {
        return Err(AllocError);
    };
    Ok(Initial {
        path: path_to(alloc, path, number)?,
        value: Expression::Number(byte_value(element, byte)),
        first,
    })
}

#[tactic(auto, using(crate::specs::Entries::text_step))]
fn text_parts<'t>(
    alloc: Global,
    element: &CType,
    path: &[u32],
    bytes: &[u8],
    first: &'t Token,
) -> Result<Vec<Initial<'t>>, NoMemory>
    requires { spec.is_character_type (plain_type element.now) ≡ true }
    ensures { IfOk result (λ parts. map plain_initial parts.items ≡ spec.text_parts (plain_type element.now) (path_from path.now) 0 bytes.now (plain_token first.now)) }
{
    let mut parts = Vec::new(alloc);
    for (number, byte) in bytes.iter().enumerate() {
        let part = text_part(alloc, element, path, number, *byte, first)?;
        parts.push(part)?;
    }
    Ok(parts)
}

/// A text that initialises an array of characters.
#[tactic(auto, using(plain_declarators::specs::Sequences::passed_is, plain_declarators::specs::Sequences::failed_refused))]
fn text_initial<'t>(
    alloc: Global,
    element: &CType,
    count: u32,
    path: &[u32],
    bytes: Vec<u8>,
    first: &'t Token,
) -> Result<Vec<Initial<'t>>, ElabError>
    requires { spec.is_character_type (plain_type element.now) ≡ true }
    ensures { Answers (spec.text_initial (plain_type element.now) count (path_from path.now) bytes.items (plain_token first.now)) (λ parts. map plain_initial parts.items) result }
{
    unless(bytes.len() <= count as usize, TypeKind::BadConstant, first)?;
    let whole = with_last_zero(bytes, count)?;
    let parts = text_parts(alloc, element, path, whole.as_slice(), first)?;
    Ok(parts)
}

/// An array of a type from texts.
#[tactic(auto, using(crate::specs::Entries::array_of_text, crate::specs::Entries::array_of_text_refused, plain_scope::specs::JudgementLaws::refuses_is))]
fn text_of_array<'t>(
    alloc: Global,
    element: &CType,
    count: u32,
    path: &[u32],
    parts: &[Tree],
    first: &'t Token,
) -> Result<Vec<Initial<'t>>, ElabError>
    ensures { Answers (array_from_text (plain_type element.now) count (path_from path.now) (plain_trees parts.now) (plain_token first.now)) (λ parts. map plain_initial parts.items) result }
{
    if !is_character_type(element) {
        return Err(refused(TypeKind::BadOperand, first));
    }
    let bytes = text_bytes(alloc, parts)?;
    let parts = text_initial(alloc, element, count, path, bytes, first)?;
    Ok(parts)
}

// ---- values

fn one_part<'t>(
    alloc: Global,
    path: &[u32],
    value: Box<Expression>,
    first: &'t Token,
) -> Result<Vec<Initial<'t>>, NoMemory>
    ensures { IfOk result (λ parts. map plain_initial parts.items ≡ value_at (path_from path.now) (plain_expression value.value) (plain_token first.now) ∷ []) }
{
    let mut parts = Vec::new(alloc);
    let path = Vec::from_slice(alloc, path)?;
    let value = Box::into_inner(value);
    parts.push(Initial { path, value, first })?;
    Ok(parts)
}

/// A value that must be constant in a global.
#[tactic(auto, using(plain_declarators::specs::Sequences::passed_is, plain_declarators::specs::Sequences::failed_refused))]
fn allowed_part<'t>(
    alloc: Global,
    scope: &Scope,
    constant: bool,
    path: &[u32],
    value: Box<Expression>,
    first: &'t Token,
) -> Result<Vec<Initial<'t>>, ElabError>
    ensures { Answers (allowed_value (plain_scope scope.now) (globals_if constant) (path_from path.now) (plain_expression value.value) (plain_token first.now)) (λ parts. map plain_initial parts.items) result }
{
    unless(
        is_allowed(scope, constant, &value),
        TypeKind::BadConstant,
        first,
    )?;
    let parts = one_part(alloc, path, value, first)?;
    Ok(parts)
}

/// The value of a scalar, or of a struct.
#[tactic(auto, using(plain_declarators::specs::Sequences::steps))]
fn value_initial<'t>(
    alloc: Global,
    scope: &Scope,
    used: &mut Used,
    constant: bool,
    ty: &CType,
    path: &[u32],
    tree: &Tree,
    first: &'t Token,
) -> Result<Vec<Initial<'t>>, ElabError>
    ensures { Judges (spec.value_initial (plain_scope scope.now) (globals_if constant) (plain_type ty.now) (path_from path.now) (plain_tree tree.now) (plain_token first.now)) (λ parts. map plain_initial parts.items) used.old used.new result }
{
    let x = valued(alloc, scope, used, tree)?;
    let core = fitted(alloc, ty, x, TypeKind::BadOperand, first)?;
    let parts = allowed_part(alloc, scope, constant, path, core, first)?;
    Ok(parts)
}

/// An array isn't initialised by a value.
#[tactic(auto, using(plain_declarators::specs::Sequences::steps, plain_scope::specs::JudgementLaws::refuses_is))]
fn array_refused<'t>(
    alloc: Global,
    scope: &Scope,
    used: &mut Used,
    tree: &Tree,
    first: &Token,
) -> Result<Vec<Initial<'t>>, ElabError>
    ensures { Judges (refused_value (plain_scope scope.now) (plain_tree tree.now) (plain_token first.now)) (λ parts. map plain_initial parts.items) used.old used.new result }
{
    valued(alloc, scope, used, tree)?;
    Err(refused(TypeKind::BadOperand, first))
}

#[tactic(auto, using(c_types::specs::TypeLaws::type_kinds))]
fn whole_initial<'t>(
    alloc: Global,
    scope: &Scope,
    used: &mut Used,
    constant: bool,
    ty: &CType,
    path: &[u32],
    tree: &Tree,
    first: &'t Token,
) -> Result<Vec<Initial<'t>>, ElabError>
    ensures { Judges (spec.whole_initial (plain_scope scope.now) (globals_if constant) (plain_type ty.now) (path_from path.now) (plain_tree tree.now) (plain_token first.now)) (λ parts. map plain_initial parts.items) used.old used.new result }
{
    match ty {
        CType::Array(..) => {
            let parts = array_refused(alloc, scope, used, tree, first)?;
            Ok(parts)
        }
        CType::Void
        | CType::Char
        | CType::UChar
        | CType::Int
        | CType::UInt
        | CType::Long
        | CType::ULong
        | CType::Pointer(_)
        | CType::Struct(_) => {
            let parts = value_initial(alloc, scope, used, constant, ty, path, tree, first)?;
            Ok(parts)
        }
    }
}

#[tactic(auto, using(c_types::specs::TypeLaws::type_kinds, plain_scope::specs::JudgementLaws::gives_nothing_used))]
fn text_or_whole<'t>(
    alloc: Global,
    scope: &Scope,
    used: &mut Used,
    constant: bool,
    ty: &CType,
    path: &[u32],
    tree: &Tree,
    texts: &[Tree],
    first: &'t Token,
) -> Result<Vec<Initial<'t>>, ElabError>
    requires { plain_tree tree.now ≡ node Kind.Texts (plain_trees texts.now) }
    ensures { Judges (spec.text_or_whole (plain_scope scope.now) (globals_if constant) (plain_type ty.now) (path_from path.now) (plain_trees texts.now) (plain_token first.now)) (λ parts. map plain_initial parts.items) used.old used.new result }
{
    match ty {
        CType::Array(element, count) => {
            let parts = text_of_array(alloc, element, *count, path, texts, first)?;
            Ok(parts)
        }
        CType::Void
        | CType::Char
        | CType::UChar
        | CType::Int
        | CType::UInt
        | CType::Long
        | CType::ULong
        | CType::Pointer(_)
        | CType::Struct(_) => {
            let parts = value_initial(alloc, scope, used, constant, ty, path, tree, first)?;
            Ok(parts)
        }
    }
}

// ---- initialisers in braces

/// Some parts, and those that follow them.
fn joined<'t>(found: Vec<Initial<'t>>, more: Vec<Initial<'t>>) -> Result<Vec<Initial<'t>>, NoMemory>
    ensures { IfOk result (λ all. map plain_initial all.items ≡ map plain_initial found.entry.items ++ map plain_initial more.entry.items) }
{
    let mut all = found;
    let mut more = more;
    all.append(&mut more)?;
    Ok(all)
}

fn stands_at(at: &FileToken, first: &Token) -> bool
    ensures { result ≡ (at.now.file == first.now.origin.file && spec.same_span (plain_span at.now.span) (plain_span first.now.origin.span)) }
{
    at.file == first.origin.file
        && (at.span.start == first.origin.span.start && at.span.end == first.origin.span.end)
}

fn is_before_bad_constant(kind: TypeKind) -> bool
    ensures { result ≡ spec.is_before_bad_constant kind }
{
    match kind {
        TypeKind::BadConstant | TypeKind::Misplaced => false,
        TypeKind::Undeclared
        | TypeKind::Redeclared
        | TypeKind::BadOperand
        | TypeKind::NotAssignable
        | TypeKind::Incomplete
        | TypeKind::ArgumentCount
        | TypeKind::NoMember => true,
    }
}

fn kind_at(kind: TypeKind, at: &FileToken, first: &Token) -> TypeKind
    ensures { result ≡ kind_at kind at.now (plain_token first.now) }
{
    if stands_at(at, first) && is_before_bad_constant(kind) {
        kind
    } else {
        TypeKind::BadConstant
    }
}

/// A list in braces is no expression.
#[tactic(auto, using(crate::specs::Entries::no_value_in_braces))]
fn kind_of_braces(parts: &[Tree]) -> Result<TypeKind, ElabError>
    ensures { MatchResult result (λ kind. (scope : entities.Scope) (first : PlainToken) → kind ≡ spec.kind_of_excess first (valued scope (node Kind.Braces (plain_trees parts.now)))) (λ error. error ≡ ElabError.Memory) }
{
    entries_in(parts)?;
    Ok(TypeKind::BadConstant)
}

#[tactic(auto, using(crate::specs::Entries::excess_refused, crate::specs::Entries::excess_given))]
fn kind_of_value(
    alloc: Global,
    scope: &Scope,
    used: &mut Used,
    tree: &Tree,
    first: &Token,
) -> Result<TypeKind, ElabError>
    ensures { MatchResult result (λ kind. kind ≡ spec.kind_of_excess (plain_token first.now) (valued (plain_scope scope.now) (plain_tree tree.now))) (λ error. error ≡ ElabError.Memory) }
{
    match valued(alloc, scope, used, tree) {
        Ok(_) => Ok(TypeKind::BadConstant),
        Err(ElabError::BadType(kind, at)) => Ok(kind_at(kind, &at, first)),
        Err(ElabError::Link(..)) => Err(ElabError::Memory),
        Err(ElabError::Memory) => Err(ElabError::Memory),
    }
}

/// How an initialiser too many is refused: as an expression, where it is refused at its first token by a lesser number.
#[tactic(auto, using(c_tree::specs::TreeLaws::tree_kinds))]
fn kind_of_excess(
    alloc: Global,
    scope: &Scope,
    used: &mut Used,
    tree: &Tree,
    first: &Token,
) -> Result<TypeKind, ElabError>
    ensures { MatchResult result (λ kind. kind ≡ spec.kind_of_excess (plain_token first.now) (valued (plain_scope scope.now) (plain_tree tree.now))) (λ error. error ≡ ElabError.Memory) }
{
    match tree {
        Tree::Leaf(_) => kind_of_value(alloc, scope, used, tree, first),
        Tree::Node(kind, parts) => match kind {
            Kind::Braces => kind_of_braces(parts),
            _ => kind_of_value(alloc, scope, used, tree, first),
        },
    }
}

#[tactic(auto, using(plain_scope::specs::JudgementLaws::refuses_is))]
fn excess(alloc: Global, scope: &Scope, used: &mut Used, tree: &Tree, first: &Token) -> ElabError
    ensures { RefusedAs (excess (plain_scope scope.now) (plain_tree tree.now) (plain_token first.now)) result }
{
    match kind_of_excess(alloc, scope, used, tree, first) {
        Ok(kind) => refused(kind, first),
        Err(error) => error,
    }
}

/// One initialiser among those in braces.
#[cycle(initialise)]
#[tactic(auto, using(plain_declarators::specs::Sequences::steps, crate::specs::Entries::part_gives, crate::specs::Entries::part_refused, crate::specs::Entries::nothing_refused))]
fn entry<'t>(
    alloc: Global,
    scope: &Scope,
    used: &mut Used,
    constant: bool,
    tree: &'t Tree,
    ty: &CType,
    path: &[u32],
    number: usize,
    behind: &'t Token,
) -> Result<Vec<Initial<'t>>, ElabError>
    ensures { Judges (entry_initial (plain_scope scope.now) (globals_if constant) (plain_type ty.now) (path_from path.now) number (plain_tree tree.now) (plain_token behind.now)) (λ parts. map plain_initial parts.items) used.old used.new result }
{
    let Ok(number) = u32::try_from(number) else {
        return Err(ElabError::Memory);
    };
    let Some(element) = part_for(alloc, scope, ty, number)? else {
        let first = first_token(tree, behind);
        return Err(excess(alloc, scope, used, tree, first));
    };
    let inner = path_for(alloc, ty, path, number)?;
    let parts = initialised(
        alloc,
        scope,
        used,
        constant,
        tree,
        &element,
        inner.as_slice(),
        behind,
    )?;
    Ok(parts)
}

/// The initialisers in braces, one after the other.
#[cycle(initialise)]
#[tactic(auto, using(plain_scope::specs::JudgementLaws::refused_first))]
fn entries<'t>(
    alloc: Global,
    scope: &Scope,
    used: &mut Used,
    constant: bool,
    list: &'t [Tree],
    ty: &CType,
    path: &[u32],
    behind: &'t Token,
) -> Result<Vec<Initial<'t>>, ElabError>
    ensures { Judges (spec.initial_entries (plain_scope scope.now) (globals_if constant) (plain_type ty.now) (path_from path.now) 0 (plain_trees list.now) (plain_token behind.now)) (λ parts. map plain_initial parts.items) used.old used.new result }
{
    let mut found = Vec::new(alloc);
    for number in 0..entry_count(list) {
        let parts = entry(
            alloc,
            scope,
            used,
            constant,
            &list[2 * number],
            ty,
            path,
            number,
            behind,
        )?;
        found = joined(found, parts)?;
    }
    Ok(found)
}

#[cycle(initialise)]
fn braced_initial<'t>(
    alloc: Global,
    scope: &Scope,
    used: &mut Used,
    constant: bool,
    parts: &'t [Tree],
    ty: &CType,
    path: &[u32],
    behind: &'t Token,
) -> Result<Vec<Initial<'t>>, ElabError>
    ensures { Judges (spec.initial (plain_scope scope.now) (globals_if constant) (plain_type ty.now) (path_from path.now) (node Kind.Braces (plain_trees parts.now)) (plain_token behind.now)) (λ parts. map plain_initial parts.items) used.old used.new result }
{
    let [_, second, _] = parts else {
        return Err(ElabError::Memory);
    };
    let Tree::Node(_, list) = second else {
        return Err(ElabError::Memory);
    };
    let found = entries(alloc, scope, used, constant, list, ty, path, behind)?;
    Ok(found)
}

/// What an initialiser gives an object of a type, or a part of one at a path.
#[cycle(initialise)]
#[tactic(auto, using(c_tree::specs::TreeLaws::tree_kinds, crate::specs::Entries::whole_gives, crate::specs::Entries::whole_refused))]
pub fn initialised<'t>(
    alloc: Global,
    scope: &Scope,
    used: &mut Used,
    constant: bool,
    tree: &'t Tree,
    ty: &CType,
    path: &[u32],
    behind: &'t Token,
) -> Result<Vec<Initial<'t>>, ElabError>
    ensures { Judges (spec.initial (plain_scope scope.now) (globals_if constant) (plain_type ty.now) (path_from path.now) (plain_tree tree.now) (plain_token behind.now)) (λ parts. map plain_initial parts.items) used.old used.new result }
{
    let first = first_token(tree, behind);
    match tree {
        Tree::Leaf(_) => {
            let parts = whole_initial(alloc, scope, used, constant, ty, path, tree, first)?;
            Ok(parts)
        }
        Tree::Node(kind, texts) => match kind {
            Kind::Braces => {
                let parts = braced_initial(alloc, scope, used, constant, texts, ty, path, behind)?;
                Ok(parts)
            }
            Kind::Texts => {
                let parts = text_or_whole(
                    alloc, scope, used, constant, ty, path, tree, texts, first,
                )?;
                Ok(parts)
            }
            _ => {
                let parts = whole_initial(alloc, scope, used, constant, ty, path, tree, first)?;
                Ok(parts)
            }
        },
    }
}
