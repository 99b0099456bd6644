//! The parameter that a tree declares (6.7.6.3).
ghost use Rattle.std.specs.Prelude.{◌≡◌, ℕ, Bool, false, List, [], ◌∷◌, option_map, if◌then◌else◌, IfOk};
ghost use Rattle.cond_formula.specs.Conditions.{condition_of, value};
ghost use Rattle.conditional.specs.Judgements.{refused};
ghost use Rattle.c_text.specs.Token.{PlainToken, plain_token};
ghost use Rattle.c_types.specs.Types.{PlainType, plain_type};
ghost use Rattle.c_tree.specs.Grammar.{are_words};
ghost use Rattle.c_tree.specs.Trees.{PlainTrees, node, none, more, plain_tree, plain_trees};
ghost use Rattle.core_meaning.specs.Declarations as spec;
ghost use Rattle.core_meaning.specs.Declarations.{Parameter};
ghost use Rattle.core_meaning.specs.Entities.{Scope};
ghost use Rattle.operand_types.specs.OperandTypes.{outcome_as, renumbered};
ghost use Rattle.plain_declarators.specs.Words.{is_absence};
ghost use Rattle.plain_parameters.specs.Parameters as plain;
ghost use Rattle.plain_parameters.specs.Parameters.{words_then, are_void, is_void_node};
ghost use Rattle.type_tables.specs.Seen.{seen_tables};
ghost use Rattle.type_tables.specs.Follows.{IsThere, FollowsInBlock};
ghost use Rattle.cond_parameters.specs.Types.{renumbered_parameter, found_at, HaveNames};

use crate::bases::{JudgedType, type_of_words};
use crate::declarators::{type_by_kind, where_parameter};
use c_text::Token;
use c_tree::{Kind, Terminal, Tree};
use c_types::CType;
use cond_formula::{Formula, NoMemory};
use plain_declarators::{is_absence, is_left_out, is_nothing, name_in};
use plain_scope::{copied, is_word};
use reduced_conditions::both;
use std::alloc::Global;
use type_tables::Tables;

/// A parameter, and where it may stand: elsewhere it is refused.
#[derive(Drop)]
pub(crate) struct FoundParameter<'t> {
    pub(crate) name: Option<&'t Token>,
    pub(crate) ty: CType,
    pub(crate) fits: Formula,
}

/// What is refused everywhere.
#[tactic(auto, using(cond_formula::specs::ConditionLaws::formula_kinds))]
fn no_parameter<'t>() -> FoundParameter<'t>
    ensures { (on : ℕ → Bool) → found_at on result ≡ refused tt }
{
    FoundParameter {
        name: None,
        ty: CType::Void,
        fits: Formula::False,
    }
}

/// Where no parameter before has the name.
#[tactic(auto, using(cond_formula::specs::ConditionLaws::formula_kinds))]
fn where_new(alloc: Global, tables: &Tables, name: Option<&Token>) -> Result<Formula, NoMemory>
    ensures { IfOk result (λ f. (on : ℕ → Bool) (scope : Scope) (follows : FollowsInBlock (seen_tables on tables.now) scope) (before : List Parameter) → HaveNames scope before
        → value on (condition_of f) ≡ spec.is_new_parameter before (option_map (λ t. plain_token t.now) name.entry)) }
{
    match name {
        Some(name) => {
            let old = tables.where_local(alloc, name.text.as_slice())?;
            Formula::not(alloc, old)
        }
        None => Ok(Formula::True),
    }
}

/// A parameter without a declarator.
fn nameless<'t>(
    alloc: Global,
    tables: &Tables,
    defining: bool,
    base: &CType,
) -> Result<FoundParameter<'t>, NoMemory>
    ensures { IfOk result (λ p. (on : ℕ → Bool) (scope : Scope) (follows : FollowsInBlock (seen_tables on tables.now) scope) (before : List Parameter) (ty : PlainType) (first : PlainToken) (parts : PlainTrees)
        → IsThere scope.structs ty → plain_type base.now ≡ renumbered follows.follows.by ty
        → found_at on p ≡ outcome_as (renumbered_parameter follows.follows.by) (spec.declared_parameter defining scope before ty first (node Kind.Absent parts))) }
{
    let ty = copied(alloc, base)?;
    let fits = where_parameter(alloc, tables, defining, &ty)?;
    Ok(FoundParameter {
        name: None,
        ty,
        fits,
    })
}

/// A parameter with a declarator.
fn named<'t>(
    alloc: Global,
    tables: &Tables,
    defining: bool,
    base: &CType,
    kind: Kind,
    parts: &'t [Tree],
) -> Result<FoundParameter<'t>, NoMemory>
    requires { is_absence kind ≡ false }
    ensures { IfOk result (λ p. (on : ℕ → Bool) (scope : Scope) (follows : FollowsInBlock (seen_tables on tables.now) scope) (before : List Parameter) (ty : PlainType) (first : PlainToken)
        → HaveNames scope before → IsThere scope.structs ty → plain_type base.now ≡ renumbered follows.follows.by ty
        → found_at on p ≡ outcome_as (renumbered_parameter follows.follows.by) (spec.declared_parameter defining scope before ty first (node kind (plain_trees parts.now)))) }
{
    let name = name_in(parts);
    let new = where_new(alloc, tables, name)?;
    let JudgedType { ty, fits } = type_by_kind(alloc, tables, base, kind, parts)?;
    let may_be = where_parameter(alloc, tables, defining, &ty)?;
    let fits = both(alloc, new, both(alloc, fits, may_be)?)?;
    Ok(FoundParameter { name, ty, fits })
}

/// A parameter by its declarator, or by what stands for it where it is left out.
fn by_kind<'t>(
    alloc: Global,
    tables: &Tables,
    defining: bool,
    base: &CType,
    kind: Kind,
    parts: &'t [Tree],
) -> Result<FoundParameter<'t>, NoMemory>
    ensures { IfOk result (λ p. (on : ℕ → Bool) (scope : Scope) (follows : FollowsInBlock (seen_tables on tables.now) scope) (before : List Parameter) (ty : PlainType) (first : PlainToken)
        → HaveNames scope before → IsThere scope.structs ty → plain_type base.now ≡ renumbered follows.follows.by ty
        → found_at on p ≡ outcome_as (renumbered_parameter follows.follows.by) (spec.declared_parameter defining scope before ty first (node kind (plain_trees parts.now)))) }
{
    if is_absence(kind) {
        let found = nameless(alloc, tables, defining, base)?;
        Ok(found)
    } else {
        let found = named(alloc, tables, defining, base, kind, parts)?;
        Ok(found)
    }
}

/// A parameter by its declarator.
#[tactic(auto, using(c_tree::specs::TreeLaws::tree_kinds))]
fn by_declarator<'t>(
    alloc: Global,
    tables: &Tables,
    defining: bool,
    base: &CType,
    declarator: &'t Tree,
) -> Result<FoundParameter<'t>, NoMemory>
    ensures { IfOk result (λ p. (on : ℕ → Bool) (scope : Scope) (follows : FollowsInBlock (seen_tables on tables.now) scope) (before : List Parameter) (ty : PlainType) (first : PlainToken)
        → HaveNames scope before → IsThere scope.structs ty → plain_type base.now ≡ renumbered follows.follows.by ty
        → found_at on p ≡ outcome_as (renumbered_parameter follows.follows.by) (spec.declared_parameter defining scope before ty first (plain_tree declarator.now))) }
{
    match declarator {
        Tree::Leaf(_) => Ok(no_parameter()),
        Tree::Node(kind, parts) => {
            let found = by_kind(alloc, tables, defining, base, *kind, parts)?;
            Ok(found)
        }
    }
}

/// A parameter where its words are fine too.
fn where_based<'t>(
    alloc: Global,
    fits: &Formula,
    found: FoundParameter<'t>,
) -> Result<FoundParameter<'t>, NoMemory>
    ensures { IfOk result (λ p. (on : ℕ → Bool) → found_at on p ≡ (if value on (condition_of fits.now) then found_at on found.entry else refused tt)) }
{
    let FoundParameter {
        name,
        ty,
        fits: own,
    } = found;
    let fits = both(alloc, fits.try_clone(alloc)?, own)?;
    Ok(FoundParameter { name, ty, fits })
}

/// A parameter by its words and its declarator.
fn by_words<'t>(
    alloc: Global,
    tables: &Tables,
    defining: bool,
    words: &[Tree],
    declarator: &'t Tree,
) -> Result<FoundParameter<'t>, NoMemory>
    ensures { IfOk result (λ p. (on : ℕ → Bool) (scope : Scope) (follows : FollowsInBlock (seen_tables on tables.now) scope) (before : List Parameter) (first : PlainToken) → HaveNames scope before
        → found_at on p ≡ outcome_as (renumbered_parameter follows.follows.by) (words_then defining scope before (plain_trees words.now) (plain_tree declarator.now) first)) }
{
    let base = type_of_words(alloc, tables, words)?;
    let found = by_declarator(alloc, tables, defining, &base.ty, declarator)?;
    let parameter = where_based(alloc, &base.fits, found)?;
    Ok(parameter)
}

/// A parameter by its parts.
#[tactic(auto, using(c_tree::specs::TreeLaws::tree_kinds))]
fn by_two_parts<'t>(
    alloc: Global,
    tables: &Tables,
    defining: bool,
    words: &Tree,
    declarator: &'t Tree,
) -> Result<FoundParameter<'t>, NoMemory>
    ensures { IfOk result (λ p. (on : ℕ → Bool) (scope : Scope) (follows : FollowsInBlock (seen_tables on tables.now) scope) (before : List Parameter) (kind : Kind) (behind : PlainToken) → HaveNames scope before
        → found_at on p ≡ outcome_as (renumbered_parameter follows.follows.by) (spec.one_parameter defining scope before (node kind (more (plain_tree words.now) (more (plain_tree declarator.now) none))) behind)) }
{
    match words {
        Tree::Leaf(_) => Ok(no_parameter()),
        Tree::Node(_, words) => {
            let found = by_words(alloc, tables, defining, words, declarator)?;
            Ok(found)
        }
    }
}

/// A parameter by its parts, of which there are two.
fn by_parts<'t>(
    alloc: Global,
    tables: &Tables,
    defining: bool,
    parts: &'t [Tree],
) -> Result<FoundParameter<'t>, NoMemory>
    ensures { IfOk result (λ p. (on : ℕ → Bool) (scope : Scope) (follows : FollowsInBlock (seen_tables on tables.now) scope) (before : List Parameter) (kind : Kind) (behind : PlainToken) → HaveNames scope before
        → found_at on p ≡ outcome_as (renumbered_parameter follows.follows.by) (spec.one_parameter defining scope before (node kind (plain_trees parts.now)) behind)) }
{
    let Some((words, rest)) = parts.split_first() else {
        return Ok(no_parameter());
    };
    let Some((declarator, others)) = rest.split_first() else {
        return Ok(no_parameter());
    };
    if !is_nothing(others) {
        return Ok(no_parameter());
    }
    let found = by_two_parts(alloc, tables, defining, words, declarator)?;
    Ok(found)
}

/// The parameter that a tree declares behind others, which are declared in the innermost block.
#[tactic(auto, using(c_tree::specs::TreeLaws::tree_kinds))]
pub(crate) fn parameter_of<'t>(
    alloc: Global,
    tables: &Tables,
    defining: bool,
    tree: &'t Tree,
) -> Result<FoundParameter<'t>, NoMemory>
    ensures { IfOk result (λ p. (on : ℕ → Bool) (scope : Scope) (follows : FollowsInBlock (seen_tables on tables.now) scope) (before : List Parameter) (behind : PlainToken) → HaveNames scope before
        → found_at on p ≡ outcome_as (renumbered_parameter follows.follows.by) (spec.one_parameter defining scope before (plain_tree tree.now) behind)) }
{
    match tree {
        Tree::Leaf(_) => Ok(no_parameter()),
        Tree::Node(_, parts) => {
            let found = by_parts(alloc, tables, defining, parts)?;
            Ok(found)
        }
    }
}

fn is_void(words: &[Tree]) -> bool
    ensures { result ≡ are_words (Terminal.Void ∷ []) (plain_trees words.now) }
{
    match words.split_first() {
        Some((word, rest)) => is_word(word, Terminal::Void) && is_nothing(rest),
        None => false,
    }
}

#[tactic(auto, using(c_tree::specs::TreeLaws::tree_kinds))]
fn names_void(words: &Tree) -> bool
    ensures { result ≡ are_void (plain_tree words.now) }
{
    match words {
        Tree::Leaf(_) => false,
        Tree::Node(_, words) => is_void(words),
    }
}

fn are_void_parts(parts: &[Tree]) -> bool
    ensures { result ≡ plain.is_void_parameter (plain_trees parts.now) }
{
    let Some((words, rest)) = parts.split_first() else {
        return false;
    };
    let Some((declarator, others)) = rest.split_first() else {
        return false;
    };
    is_nothing(others) && names_void(words) && is_left_out(declarator)
}

/// Whether a tree is a parameter with the word `void` alone.
#[tactic(auto, using(c_tree::specs::TreeLaws::tree_kinds))]
pub(crate) fn is_void_parameter(tree: &Tree) -> bool
    ensures { result ≡ is_void_node (plain_tree tree.now) }
{
    match tree {
        Tree::Leaf(_) => false,
        Tree::Node(_, parts) => are_void_parts(parts),
    }
}
