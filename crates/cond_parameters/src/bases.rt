//! The types that the words of a parameter name, which declare no struct (6.7.2).
ghost use Rattle.std.specs.Prelude.{◌≡◌, ℕ, Bool, false, Some, IfOk};
ghost use Rattle.conditional.specs.Judgements.{fine, refused};
ghost use Rattle.c_types.specs.Types.{plain_type};
ghost use Rattle.c_tree.specs.Trees.{plain_trees};
ghost use Rattle.cond_declarators.specs.Elements.{struct_if_any};
ghost use Rattle.cond_declarators.specs.Types.{base_type};
ghost use Rattle.core_meaning.specs.Declarations.{based};
ghost use Rattle.core_meaning.specs.Entities.{Scope};
ghost use Rattle.operand_types.specs.OperandTypes.{outcome_as};
ghost use Rattle.type_tables.specs.Questions.{where_declared};
ghost use Rattle.type_tables.specs.Seen.{seen_tables};
ghost use Rattle.type_tables.specs.Follows.{Follows};
ghost use Rattle.cond_parameters.specs.Types.{judged_type};

use c_tree::{Terminal, Tree};
use c_types::CType;
use cond_formula::{Formula, NoMemory};
use plain_declarators::name_in;
use plain_scope::{arithmetic_words, has_terminal};
use std::alloc::Global;
use type_tables::Tables;

/// A type, and where it may stand: elsewhere it is refused.
#[derive(Drop)]
pub(crate) struct JudgedType {
    pub(crate) ty: CType,
    pub(crate) fits: Formula,
}

/// What is refused everywhere.
#[tactic(auto, using(cond_formula::specs::ConditionLaws::formula_kinds))]
pub(crate) fn no_type() -> JudgedType
    ensures { (on : ℕ → Bool) → judged_type on result ≡ refused tt }
{
    JudgedType {
        ty: CType::Void,
        fits: Formula::False,
    }
}

/// A type that may stand everywhere.
#[tactic(auto, using(cond_formula::specs::ConditionLaws::formula_kinds))]
pub(crate) fn type_anywhere(ty: CType) -> JudgedType
    ensures { (on : ℕ → Bool) → judged_type on result ≡ fine (plain_type ty) }
{
    JudgedType {
        ty,
        fits: Formula::True,
    }
}

/// The struct with this number, where it is declared.
#[tactic(auto, using(c_types::specs::TypeLaws::type_kinds))]
fn type_of_struct(alloc: Global, tables: &Tables, number: u32) -> Result<JudgedType, NoMemory>
    ensures { IfOk result (λ j. (on : ℕ → Bool) → judged_type on j ≡ struct_if_any (where_declared (seen_tables on tables.now) (Some number))) }
{
    let fits = tables.where_declared(alloc, number)?;
    Ok(JudgedType {
        ty: CType::Struct(number),
        fits,
    })
}

/// The struct of a tag, where it is visible.
fn type_of_tag(alloc: Global, tables: &Tables, tag: &[u8]) -> Result<JudgedType, NoMemory>
    ensures { IfOk result (λ j. (on : ℕ → Bool) → judged_type on j ≡ struct_if_any ((seen_tables on tables.now).tags tag.now)) }
{
    match tables.tagged(tag) {
        Some(number) => {
            let found = type_of_struct(alloc, tables, number)?;
            Ok(found)
        }
        None => Ok(no_type()),
    }
}

/// The type that words name.
pub(crate) fn type_of_words(
    alloc: Global,
    tables: &Tables,
    words: &[Tree],
) -> Result<JudgedType, NoMemory>
    ensures { IfOk result (λ j. (on : ℕ → Bool) (scope : Scope) (f : Follows (seen_tables on tables.now) scope)
        → judged_type on j ≡ outcome_as (base_type f.by) (based false scope (plain_trees words.now))) }
{
    if !has_terminal(words, Terminal::Struct) {
        return Ok(type_anywhere(arithmetic_words(words)));
    }
    match name_in(words) {
        Some(tag) => {
            let found = type_of_tag(alloc, tables, tag.text.as_slice())?;
            Ok(found)
        }
        None => Ok(no_type()),
    }
}
