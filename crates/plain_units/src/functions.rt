//! Functions: their declarations, their parameters and their blocks (6.7.6.3, 6.9.1).
ghost use Rattle.std.specs.Prelude.{◌≡◌, map, option_map, IfOk, OnOk, MatchResult};
ghost use Rattle.c_text.specs.Token.{plain_token};
ghost use Rattle.c_types.specs.Types.{plain_type};
ghost use Rattle.c_tree.specs.Trees.{plain_tree, plain_trees};
ghost use Rattle.core_meaning.specs.Entities.{function};
ghost use Rattle.core_meaning.specs.UnitNames as spec;
ghost use Rattle.plain_scope.specs.Blocks.{without_block};
ghost use Rattle.plain_scope.specs.PlainScope.{plain_scope, plain_sort};
ghost use Rattle.plain_scope.specs.Judgements.{Answers, Judges, RefusedAs};
ghost use Rattle.plain_parameters.specs.PlainParameters.{plain_parameter};
ghost use Rattle.plain_statements.specs.PlainJudged.{plain_judged_items};
ghost use Rattle.plain_objects.specs.PlainStates.{plain_storage};
ghost use Rattle.plain_units.specs.Functions.{placed_function, function_declared, function_items, items_in, found_as, named_function, function_with_result, kind_of_result, complete_function, function_found, refusal_at};

use c_text::Token;
use c_tree::{Kind, Tree};
use c_types::CType;
use cond_formula::NoMemory;
use core_meaning::{Definition, Item, TypeKind};
use plain_declarators::{node_parts, starred, three_parts};
use plain_objects::{Storage, declare_name, may_be_function};
use plain_parameters::{Parameter, declared_parameters, enter_parameter};
use plain_scope::{
    ElabError, Scope, Signature, Sort, Used, copied, first_token, is_void, refused, unless,
};
use plain_statements::statement_items;
use std::alloc::Global;

// ---- signatures

fn parameter_types(alloc: Global, parameters: &[Parameter]) -> Result<Vec<CType>, NoMemory>
    ensures { IfOk result (λ types. map plain_type types.items ≡ spec.parameter_types (map plain_parameter parameters.now)) }
{
    let mut types = Vec::new(alloc);
    for p in parameters {
        types.push(copied(alloc, &p.ty)?)?;
    }
    Ok(types)
}

fn signature(alloc: Global, returns: &CType, parameters: &[Parameter]) -> Result<Sort, NoMemory>
    ensures { IfOk result (λ sort. plain_sort sort ≡ function (spec.signature_of (plain_type returns.now) (map plain_parameter parameters.now))) }
{
    let parameters = parameter_types(alloc, parameters)?;
    let result = copied(alloc, returns)?;
    Ok(Sort::Function(Signature { result, parameters }))
}

/// Declares a function's name.
fn name_function(
    alloc: Global,
    scope: &mut Scope,
    storage: Storage,
    returns: &CType,
    name: &Token,
    parameters: &[Parameter],
) -> Result<(), ElabError>
    ensures { Answers (spec.with_name (plain_scope scope.old) (plain_token name.now) (function (spec.signature_of (plain_type returns.now) (map plain_parameter parameters.now))) (plain_storage storage)) (λ u. plain_scope scope.new) result }
{
    let sort = signature(alloc, returns, parameters)?;
    declare_name(alloc, scope, name, sort, storage)
}

// ---- declarations

#[tactic(auto, using(plain_scope::specs::JudgementLaws::refuses_is))]
fn refuse_initialiser(initialiser: Option<&Tree>, name: &Token) -> Result<(), ElabError>
    ensures { Answers (spec.refused_initialiser (option_map (λ t. plain_tree t.now) initialiser.entry) (plain_token name.now)) (λ u. tt) result }
{
    match initialiser {
        Some(initialiser) => Err(refused(TypeKind::BadOperand, first_token(initialiser, name))),
        None => Ok(()),
    }
}

#[tactic(auto, using(crate::specs::Functions::placed_is, crate::specs::Functions::naming_refused, crate::specs::Functions::initialiser_refused))]
fn place_function(
    alloc: Global,
    scope: &mut Scope,
    storage: Storage,
    returns: &CType,
    name: &Token,
    initialiser: Option<&Tree>,
    parameters: &[Parameter],
) -> Result<(), ElabError>
    ensures { Answers (placed_function (plain_scope scope.old) (plain_storage storage) (spec.signature_of (plain_type returns.now) (map plain_parameter parameters.now)) (plain_token name.now) (option_map (λ t. plain_tree t.now) initialiser.entry)) (λ u. plain_scope scope.new) result }
{
    name_function(alloc, scope, storage, returns, name, parameters)?;
    refuse_initialiser(initialiser, name)
}

/// The parameters of a function whose name no other declaration keeps from it.
#[tactic(auto, using(plain_declarators::specs::Sequences::passed_gives, plain_declarators::specs::Sequences::passed_refused, plain_declarators::specs::Sequences::failed_refused))]
fn new_function<'t>(
    alloc: Global,
    scope: &mut Scope,
    used: &mut Used,
    defining: bool,
    storage: Storage,
    returns: &CType,
    parts: &'t [Tree],
    name: &Token,
) -> Result<Vec<Parameter<'t>>, ElabError>
    ensures judged { Judges (spec.new_function defining (plain_scope scope.old) (plain_storage storage) (plain_type returns.now) (plain_trees parts.now) (plain_token name.now)) (λ all. map plain_parameter all.items) used.old used.new result }
    ensures same { OnOk result (plain_scope scope.new ≡ plain_scope scope.old) }
{
    unless(
        may_be_function(scope, storage, returns, name.text.as_slice()),
        TypeKind::Redeclared,
        name,
    )?;
    declared_parameters(alloc, scope, used, defining, parts, name)
}

/// The declaration of a function that doesn't define it.
#[tactic(auto, using(crate::specs::Functions::declared_gives, crate::specs::Functions::parameters_refused, crate::specs::Functions::placing_refused))]
pub fn declare_function(
    alloc: Global,
    scope: &mut Scope,
    used: &mut Used,
    storage: Storage,
    base: &CType,
    parts: &[Tree],
    name: &Token,
    initialiser: Option<&Tree>,
) -> Result<(), ElabError>
    ensures { Judges (function_declared (plain_scope scope.old) (plain_storage storage) (plain_type base.now) (plain_trees parts.now) (plain_token name.now) (option_map (λ t. plain_tree t.now) initialiser.entry)) (λ u. plain_scope scope.new) used.old used.new result }
{
    let returns = starred(alloc, parts, base)?;
    let parameters = new_function(alloc, scope, used, false, storage, &returns, parts, name)?;
    place_function(
        alloc,
        scope,
        storage,
        &returns,
        name,
        initialiser,
        parameters.as_slice(),
    )
}

// ---- parameters of definitions

/// The parameters of a definition are its first slots.
fn enter_parameters(
    alloc: Global,
    scope: &mut Scope,
    parameters: &[Parameter],
) -> Result<(), ElabError>
    ensures placed { MatchResult result (λ u. plain_scope scope.new ≡ spec.with_parameters (plain_scope scope.old) 0 (map plain_parameter parameters.now)) (λ error. error ≡ ElabError.Memory) }
    ensures outside { OnOk result (without_block (plain_scope scope.new) ≡ without_block (plain_scope scope.old)) }
{
    for i in 0..parameters.len() {
        enter_parameter(alloc, scope, i, &parameters[i])?;
    }
    Ok(())
}

// ---- blocks of definitions

#[tactic(auto, using(c_tree::specs::TreeLaws::tree_kinds, plain_scope::specs::JudgementLaws::gives_nothing_used))]
fn items_in(
    alloc: Global,
    scope: &mut Scope,
    used: &mut Used,
    returns: &CType,
    slots: &mut Vec<CType>,
    list: &Tree,
) -> Result<Vec<Item>, ElabError>
    ensures judged { Judges (items_in (plain_scope scope.old) (plain_type returns.now) (map plain_type slots.old.items) (plain_tree list.now)) (λ items. plain_judged_items slots.new.items items.items) used.old used.new result }
    ensures outside { OnOk result (without_block (plain_scope scope.new) ≡ without_block (plain_scope scope.old)) }
{
    let Tree::Node(kind, parts) = list else {
        return Err(ElabError::Memory);
    };
    match kind {
        Kind::Items => statement_items(alloc, scope, used, parts, slots, returns, false),
        Kind::Absent => Ok(Vec::new(alloc)),
        _ => Err(ElabError::Memory),
    }
}

fn judge_body(
    alloc: Global,
    scope: &mut Scope,
    used: &mut Used,
    returns: &CType,
    slots: &mut Vec<CType>,
    body: &Tree,
) -> Result<Vec<Item>, ElabError>
    ensures judged { Judges (spec.judged_body (plain_scope scope.old) (plain_type returns.now) (map plain_type slots.old.items) (plain_tree body.now)) (λ items. plain_judged_items slots.new.items items.items) used.old used.new result }
    ensures outside { OnOk result (without_block (plain_scope scope.new) ≡ without_block (plain_scope scope.old)) }
{
    let parts = node_parts(body)?;
    let (_, list, _) = three_parts(parts)?;
    items_in(alloc, scope, used, returns, slots, list)
}

/// The block of a function, which its parameters belong to (6.2.1).
fn judge_block(
    alloc: Global,
    scope: &mut Scope,
    used: &mut Used,
    returns: &CType,
    parameters: &[Parameter],
    body: &Tree,
) -> Result<Definition, ElabError>
    ensures judged { Judges (function_items (plain_scope scope.old) (plain_type returns.now) (map plain_parameter parameters.now) (plain_tree body.now)) (λ d. plain_judged_items d.slots.items d.body.items) used.old used.new result }
    ensures same { OnOk result (plain_scope scope.new ≡ plain_scope scope.old) }
{
    let mut slots = parameter_types(alloc, parameters)?;
    scope.begin_block(alloc)?;
    enter_parameters(alloc, scope, parameters)?;
    let body = judge_body(alloc, scope, used, returns, &mut slots, body)?;
    scope.end_block();
    Ok(Definition { slots, body })
}

// ---- definitions

/// A function's name, and its block, in which it is visible.
#[tactic(auto, using(crate::specs::Functions::block_gives, crate::specs::Functions::block_refused, plain_scope::specs::JudgementLaws::refused_first))]
fn named_function(
    alloc: Global,
    scope: &mut Scope,
    used: &mut Used,
    storage: Storage,
    returns: &CType,
    name: &Token,
    body: &Tree,
    parameters: &[Parameter],
) -> Result<Definition, ElabError>
    ensures { Judges (named_function (plain_scope scope.old) (plain_storage storage) (plain_type returns.now) (plain_token name.now) (plain_tree body.now) (map plain_parameter parameters.now)) (λ d. found_as (plain_scope scope.new) (plain_judged_items d.slots.items d.body.items)) used.old used.new result }
{
    name_function(alloc, scope, storage, returns, name, parameters)?;
    let d = judge_block(alloc, scope, used, returns, parameters, body)?;
    Ok(d)
}

#[tactic(auto, using(crate::specs::Functions::with_result_gives, crate::specs::Functions::with_result_refused, plain_scope::specs::JudgementLaws::refused_first))]
fn function_with_result(
    alloc: Global,
    scope: &mut Scope,
    used: &mut Used,
    storage: Storage,
    returns: &CType,
    parts: &[Tree],
    name: &Token,
    body: &Tree,
) -> Result<Definition, ElabError>
    ensures { Judges (function_with_result (plain_scope scope.old) (plain_storage storage) (plain_type returns.now) (plain_trees parts.now) (plain_token name.now) (plain_tree body.now)) (λ d. found_as (plain_scope scope.new) (plain_judged_items d.slots.items d.body.items)) used.old used.new result }
{
    let parameters = new_function(alloc, scope, used, true, storage, returns, parts, name)?;
    named_function(
        alloc,
        scope,
        used,
        storage,
        returns,
        name,
        body,
        parameters.as_slice(),
    )
}

// ---- results that no definition may have

/// How a name is refused whose function has a result that no definition may have.
#[tactic(auto, using(crate::specs::Functions::kind_taken, crate::specs::Functions::kind_left))]
fn kind_by_name(
    alloc: Global,
    scope: &mut Scope,
    storage: Storage,
    returns: &CType,
    name: &Token,
    parameters: &[Parameter],
) -> Result<TypeKind, ElabError>
    ensures { MatchResult result (λ kind. kind ≡ spec.kind_or_incomplete (spec.with_name (plain_scope scope.old) (plain_token name.now) (function (spec.signature_of (plain_type returns.now) (map plain_parameter parameters.now))) (plain_storage storage))) (λ error. error ≡ ElabError.Memory) }
{
    match name_function(alloc, scope, storage, returns, name, parameters) {
        Ok(()) => Ok(TypeKind::Incomplete),
        Err(ElabError::BadType(kind, _)) => Ok(kind),
        Err(ElabError::Link(..)) => Err(ElabError::Memory),
        Err(ElabError::Memory) => Err(ElabError::Memory),
    }
}

/// The same with the parameters, which don't matter where they are refused.
#[tactic(auto, using(crate::specs::Functions::kind_behind, crate::specs::Functions::kind_without, crate::specs::Functions::kind_of_another))]
fn kind_of_result(
    alloc: Global,
    scope: &mut Scope,
    used: &mut Used,
    storage: Storage,
    returns: &CType,
    parts: &[Tree],
    name: &Token,
) -> Result<TypeKind, ElabError>
    ensures { MatchResult result (λ kind. kind ≡ kind_of_result (plain_scope scope.old) (plain_storage storage) (plain_type returns.now) (plain_trees parts.now) (plain_token name.now)) (λ error. error ≡ ElabError.Memory) }
{
    if !may_be_function(scope, storage, returns, name.text.as_slice()) {
        return Ok(TypeKind::Redeclared);
    }
    match declared_parameters(alloc, scope, used, true, parts, name) {
        Ok(parameters) => kind_by_name(alloc, scope, storage, returns, name, parameters.as_slice()),
        Err(ElabError::BadType(..)) => Ok(TypeKind::Incomplete),
        Err(ElabError::Link(..)) => Err(ElabError::Memory),
        Err(ElabError::Memory) => Err(ElabError::Memory),
    }
}

/// Another declaration of the name is refused before the result (6.7, 6.9.1).
#[tactic(auto, using(plain_scope::specs::JudgementLaws::refuses_is))]
fn refused_result(
    alloc: Global,
    scope: &mut Scope,
    used: &mut Used,
    storage: Storage,
    returns: &CType,
    parts: &[Tree],
    name: &Token,
) -> ElabError
    ensures { RefusedAs (refusal_at (kind_of_result (plain_scope scope.old) (plain_storage storage) (plain_type returns.now) (plain_trees parts.now) (plain_token name.now)) (plain_token name.now)) result }
{
    match kind_of_result(alloc, scope, used, storage, returns, parts, name) {
        Ok(kind) => refused(kind, name),
        Err(error) => error,
    }
}

/// A result that isn't `void` is complete (6.9.1).
fn is_result(scope: &Scope, ty: &CType) -> bool
    ensures { result ≡ spec.is_result (plain_scope scope.now) (plain_type ty.now) }
{
    is_void(ty) || scope.is_complete(ty)
}

#[tactic(auto, using(plain_declarators::specs::Sequences::passed_gives, plain_declarators::specs::Sequences::passed_refused, crate::specs::Functions::result_refused))]
fn complete_function(
    alloc: Global,
    scope: &mut Scope,
    used: &mut Used,
    storage: Storage,
    returns: &CType,
    parts: &[Tree],
    name: &Token,
    body: &Tree,
) -> Result<Definition, ElabError>
    ensures { Judges (complete_function (plain_scope scope.old) (plain_storage storage) (plain_type returns.now) (plain_trees parts.now) (plain_token name.now) (plain_tree body.now)) (λ d. found_as (plain_scope scope.new) (plain_judged_items d.slots.items d.body.items)) used.old used.new result }
{
    if is_result(scope, returns) {
        function_with_result(alloc, scope, used, storage, returns, parts, name, body)
    } else {
        Err(refused_result(alloc, scope, used, storage, returns, parts, name))
    }
}

/// The definition of a function: the types of its slots, parameters first, and the items of its block.
#[tactic(auto, using(crate::specs::Functions::found_gives, crate::specs::Functions::found_refused))]
pub fn judge_function(
    alloc: Global,
    scope: &mut Scope,
    used: &mut Used,
    storage: Storage,
    base: &CType,
    parts: &[Tree],
    name: &Token,
    body: &Tree,
) -> Result<Definition, ElabError>
    ensures { Judges (function_found (plain_scope scope.old) (plain_storage storage) (plain_type base.now) (plain_trees parts.now) (plain_token name.now) (plain_tree body.now)) (λ d. found_as (plain_scope scope.new) (plain_judged_items d.slots.items d.body.items)) used.old used.new result }
{
    let returns = starred(alloc, parts, base)?;
    complete_function(alloc, scope, used, storage, &returns, parts, name, body)
}
