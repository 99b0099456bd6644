//! The types that declarators give parameters, and whether a parameter may be of a type (6.7.6.3).
ghost use Rattle.std.specs.Prelude.{◌≡◌, ℕ, Bool, ◌&&◌, option_map, IfOk};
ghost use Rattle.cond_formula.specs.Conditions.{condition_of, value};
ghost use Rattle.c_text.specs.Token.{PlainToken};
ghost use Rattle.c_types.specs.Types as types;
ghost use Rattle.c_types.specs.Types.{PlainType, plain_type};
ghost use Rattle.c_tree.specs.Trees.{plain_tree, plain_trees};
ghost use Rattle.core_meaning.specs.Constancy.{judged_count, is_small};
ghost use Rattle.core_meaning.specs.Declarations.{size_of_parameter, parameter_type, may_be_parameter};
ghost use Rattle.core_meaning.specs.Entities.{Scope};
ghost use Rattle.operand_types.specs.OperandTypes.{outcome_as, renumbered};
ghost use Rattle.type_tables.specs.Seen.{seen_tables};
ghost use Rattle.type_tables.specs.Follows.{IsThere, Follows};
ghost use Rattle.cond_parameters.specs.Types.{judged_type, is_fine};

use crate::bases::{JudgedType, no_type, type_anywhere};
use c_tree::{Kind, Terminal, Tree};
use c_types::CType;
use cond_formula::{Formula, NoMemory};
use cond_sizes::count_of_tree;
use plain_declarators::{behind_word, has_no_size, starred};
use plain_scope::is_void;
use reduced_conditions::both;
use std::alloc::Global;
use type_tables::Tables;

/// Whether a size is constant, which is the same in each configuration.
fn is_constant_size(alloc: Global, size: &Tree) -> Result<bool, NoMemory>
    ensures { IfOk result (λ b. (scope : Scope) (name : PlainToken) → b ≡ is_fine (judged_count scope (plain_tree size.now) name)) }
{
    let count = count_of_tree(alloc, size)?;
    Ok(count.is_ok())
}

/// Whether the size of a parameter's array is constant, if it is given.
fn has_constant_size(alloc: Global, size: Option<&Tree>) -> Result<bool, NoMemory>
    ensures { IfOk result (λ b. (scope : Scope) (name : PlainToken) → b ≡ is_fine (size_of_parameter scope name (option_map (λ t. plain_tree t.now) size.entry))) }
{
    if has_no_size(size) {
        return Ok(true);
    }
    match size {
        Some(size) => {
            let constant = is_constant_size(alloc, size)?;
            Ok(constant)
        }
        None => Ok(false),
    }
}

/// A condition, if this is so, and else one that is never true.
#[tactic(auto, using(cond_formula::specs::ConditionLaws::formula_kinds))]
fn if_so(so: bool, when: Formula) -> Formula
    ensures { (on : ℕ → Bool) → value on (condition_of result) ≡ (so && value on (condition_of when)) }
{
    if so { when } else { Formula::False }
}

#[tactic(auto, using(c_types::specs::TypeLaws::type_kinds))]
fn pointer_to(alloc: Global, target: CType) -> Result<CType, NoMemory>
    ensures { IfOk result (λ ty. plain_type ty ≡ types.pointer_to (plain_type target)) }
{
    Ok(CType::Pointer(Box::new(alloc, target)?))
}

/// The type of a parameter that is declared as an array: a pointer to the elements, which are complete.
fn array_type(
    alloc: Global,
    tables: &Tables,
    base: &CType,
    parts: &[Tree],
) -> Result<JudgedType, NoMemory>
    ensures { IfOk result (λ j. (on : ℕ → Bool) (scope : Scope) (f : Follows (seen_tables on tables.now) scope) (ty : PlainType) (name : PlainToken)
        → IsThere scope.structs ty → plain_type base.now ≡ renumbered f.by ty
        → judged_type on j ≡ outcome_as (renumbered f.by) (parameter_type scope ty Kind.ArrayDeclarator (plain_trees parts.now) name)) }
{
    let element = starred(alloc, parts, base)?;
    let constant = has_constant_size(alloc, behind_word(parts, Terminal::OpenBracket))?;
    let complete = tables.where_complete(alloc, &element)?;
    let fits = if_so(constant, complete);
    let ty = pointer_to(alloc, element)?;
    Ok(JudgedType { ty, fits })
}

/// The type of a parameter by the kind of its declarator.
pub(crate) fn type_by_kind(
    alloc: Global,
    tables: &Tables,
    base: &CType,
    kind: Kind,
    parts: &[Tree],
) -> Result<JudgedType, NoMemory>
    ensures { IfOk result (λ j. (on : ℕ → Bool) (scope : Scope) (f : Follows (seen_tables on tables.now) scope) (ty : PlainType) (name : PlainToken)
        → IsThere scope.structs ty → plain_type base.now ≡ renumbered f.by ty
        → judged_type on j ≡ outcome_as (renumbered f.by) (parameter_type scope ty kind (plain_trees parts.now) name)) }
{
    match kind {
        Kind::ArrayDeclarator => {
            let found = array_type(alloc, tables, base, parts)?;
            Ok(found)
        }
        Kind::Declarator => {
            let ty = starred(alloc, parts, base)?;
            Ok(type_anywhere(ty))
        }
        _ => Ok(no_type()),
    }
}

/// Where a type isn't too large for an object.
fn where_small(alloc: Global, tables: &Tables, ty: &CType) -> Result<Formula, NoMemory>
    ensures { IfOk result (λ f. (on : ℕ → Bool) (scope : Scope) (follows : Follows (seen_tables on tables.now) scope) (whole : PlainType)
        → IsThere scope.structs whole → plain_type ty.now ≡ renumbered follows.by whole
        → value on (condition_of f) ≡ is_small scope.structs whole) }
{
    let small = tables.where_small(alloc, ty)?;
    Ok(small)
}

/// Where a type is complete, if it has to be.
fn where_complete_enough(
    alloc: Global,
    tables: &Tables,
    defining: bool,
    ty: &CType,
) -> Result<Formula, NoMemory>
    ensures { IfOk result (λ f. (on : ℕ → Bool) (scope : Scope) (follows : Follows (seen_tables on tables.now) scope) (whole : PlainType)
        → IsThere scope.structs whole → plain_type ty.now ≡ renumbered follows.by whole
        → value on (condition_of f) ≡ may_be_parameter defining scope whole) }
{
    if is_void(ty) {
        return Ok(Formula::False);
    }
    if defining {
        let complete = tables.where_complete(alloc, ty)?;
        Ok(complete)
    } else {
        Ok(Formula::True)
    }
}

/// Where a parameter may be of this type: of a declaration also of an incomplete one.
pub(crate) fn where_parameter(
    alloc: Global,
    tables: &Tables,
    defining: bool,
    ty: &CType,
) -> Result<Formula, NoMemory>
    ensures { IfOk result (λ f. (on : ℕ → Bool) (scope : Scope) (follows : Follows (seen_tables on tables.now) scope) (whole : PlainType)
        → IsThere scope.structs whole → plain_type ty.now ≡ renumbered follows.by whole
        → value on (condition_of f) ≡ (may_be_parameter defining scope whole && is_small scope.structs whole)) }
{
    let complete = where_complete_enough(alloc, tables, defining, ty)?;
    let small = where_small(alloc, tables, ty)?;
    let fits = both(alloc, complete, small)?;
    Ok(fits)
}
