//! Which identifiers of a unit's items use members of which structs, item by item (in `specs/`), and the laws that its items are judged so
//! (ISO/IEC 9899:2011, 6.9), the contracts of functions that compute nothing.
#![tactic(auto)]

ghost use Rattle.unit_member_uses.specs.Laws.{DeclarationsAreUsed, DeclarationsUseNothing, FunctionsAreUsed, ItemsKeepNames, NamesUseInitialisers, ScopesKeepNames, StructsUseNothing, UnitsAreUsed};

mod rows;

use cond_sizes::counts_need_no_names;
use expression_types::expressions_have_types;
use first_values::first_values_name_no_members;
use member_uses::declarators_are_derived;
use operand_types::types_are_kept;
pub use rows::worked_uses;
use tree_derivations::units_are_derived;

/// The uses of members in a unit are those of its items, one after the other.
pub fn units_are_used()
    ensures { UnitsAreUsed }
{
    types_are_kept();
    expressions_have_types();
    counts_need_no_names();
    units_are_derived();
}

/// Behind an item names of file scope are spelt as names still.
pub fn items_keep_names()
    ensures { ItemsKeepNames }
{
    types_are_kept();
    expressions_have_types();
    counts_need_no_names();
}

/// So they are where a unit begins, behind the words of a type and each declarator, and where a function's block begins.
pub fn scopes_keep_names()
    ensures { ScopesKeepNames }
{
    types_are_kept();
    expressions_have_types();
    counts_need_no_names();
}

/// Those of a declaration at file scope are those of its declarators, one after the other.
pub fn declarations_are_used()
    ensures { DeclarationsAreUsed }
{
    types_are_kept();
    expressions_have_types();
    counts_need_no_names();
}

/// There are none, as first values are constant.
pub fn declarations_use_nothing()
    ensures { DeclarationsUseNothing }
{
    types_are_kept();
    expressions_have_types();
    counts_need_no_names();
    first_values_name_no_members();
    declarators_are_derived();
    declarations_are_used();
    scopes_keep_names();
}

/// Those of a declarator there are the selections of its first value.
pub fn names_use_initialisers()
    ensures { NamesUseInitialisers }
{
    types_are_kept();
    expressions_have_types();
    counts_need_no_names();
}

/// Those of a function's definition are those of its block.
pub fn functions_are_used()
    ensures { FunctionsAreUsed }
{
    types_are_kept();
    expressions_have_types();
    counts_need_no_names();
}

/// Structs are declared and defined without any.
pub fn structs_use_nothing()
    ensures { StructsUseNothing }
{
    types_are_kept();
    expressions_have_types();
    counts_need_no_names();
}
